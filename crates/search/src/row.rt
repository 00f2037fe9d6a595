// Adjacency lists, and their rows.

ghost use Rattle.std.specs.Prelude.{◌≡◌, true, ◌↔◌, ℕ, ◌<◌};
ghost use Rattle.theory.specs.Adjacency.{Adjacent, Rows};
ghost use Rattle.search.specs.Queue.{row_of};

use limits::Word;

// What node p leads to stands in `targets` from place first[p] up to place first[p + 1].
#[derive(Clone, Copy)]
pub struct Steps<'a> {
    pub first: &'a [u32],
    pub targets: &'a [Word],
    pub nodes: usize,
    pub ghost rows: { Rows first.now targets.now nodes },
}

impl<'a> Steps<'a> {
    // The successors of p.
    pub fn row(self, p: usize) -> &'a [Word]
        requires { p < self.nodes }
        ensures { result.now ≡ row_of self.entry.first.now self.entry.targets.now p }
    {
        let from = self.first[p] as usize;
        let to = self.first[p + 1] as usize;
        &self.targets[from..to]
    }

    // Whether q is a successor of p.
    pub fn leads_to(self, p: usize, q: usize) -> bool
        requires { p < self.nodes }
        ensures { (result ≡ true) ↔ Adjacent self.entry.first.now self.entry.targets.now p q }
    {
        self.row(p).iter().any(|&t| usize::from(t) == q)
    }
}
