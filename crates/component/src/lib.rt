// Closed walks and heights of all nodes of a graph, in one pass over its nodes and steps: the strongly connected components, found on a stack of
// unfinished nodes that is cut into segments. A segment is strongly connected as far as is known; when its first node has no successor left, it
// is a component.
#![tactic(auto)]

ghost use Rattle.std.specs.Prelude.{◌≡◌, true, ℕ, suc, ◌+◌, ◌-◌, ◌≤◌, ◌<◌, length, unwrap_or, IfSome};
ghost use Rattle.limits.specs.Limits.{max_states};
ghost use Rattle.component.specs.Marks.{GraphLists, Marks};
ghost use Rattle.component.specs.Graph.{graph_of};
ghost use Rattle.component.specs.Stack.{at as value};
ghost use Rattle.component.specs.Scan.{RowOf, Cursor, NewPlace, LowAt, Low, Merged, height_in, MostAt, MostFrom, Most, Painted};
ghost use Rattle.component.specs.Pass.{Entered, NoNew, Moved, Popped};

use limits::Word;

// The steps between the nodes below `nodes`: those of node v stand in targets, from place first[v] up to place first[v + 1].
#[derive(Clone, Copy)]
struct Graph<'a> {
    first: &'a [u32],
    targets: &'a [Word],
    nodes: usize,
    ghost lists: { GraphLists first.now targets.now nodes },
}

impl<'a> Graph<'a> {
    ghost use Rattle.component.specs.Held.{graph_in};

    // The successors of v.
    fn row(&self, v: usize) -> &'a [Word]
        requires { v < self.now.nodes }
        ensures row { RowOf (graph_in self.now) v result.now }
        ensures below { (k : ℕ) → k < length result.now → value result.now k < self.now.nodes }
    {
        let from = self.first[v] as usize;
        let end = self.first[v + 1] as usize;
        &self.targets[from..end]
    }
}

// The lower of low and the place of t on the stack.
fn low_at(mark: &[Word], t: usize, low: usize) -> usize
    requires { t < length mark.now }
    ensures { LowAt (value mark.now) t low result }
{
    let x = usize::from(mark[t]);
    if 0 < x { low.min(x - 1) } else { low }
}

// The larger of h and one more than the height of t, if t is finished.
fn height_at(mark: &[Word], n: usize, t: usize, h: usize) -> usize
    requires { (t < length mark.now) × (n ≤ max_states) }
    ensures { MostAt (value mark.now) n t h result }
{
    let x = usize::from(mark[t]);
    if n < x {
        h.max((x - (n + 1)) / 2 + 1)
    } else {
        h
    }
}

// The marks of the finished nodes as 2h + c.
fn settle(mark: &mut [Word], n: usize)
    requires { (n ≤ max_states) × (length mark.old ≡ n) × ((s : ℕ) → s < n → n < value mark.old s) }
    ensures { (s : ℕ) → s < n → value mark.new s ≡ value mark.old s - (n + 1) }
{
    let base = (n + 1) as Word;
    for x in mark.iter_mut() {
        *x -= base;
    }
}

// A pass over a graph, in four lists that are lent; how far the stack, the segments and the path reach, and the place of the current node, the
// path's last, on the stack.
#[derive(Drop)]
struct Pass<'a> {
    mark: &'a mut [Word],
    stack: &'a mut [Word],
    path: &'a mut [Word],
    start: &'a mut [Word],
    top: usize,
    segs: usize,
    depth: usize,
    cur: usize,
}

impl<'a> Pass<'a> {
    ghost use Rattle.component.specs.Held.{graph_in, InPass, Idle, Same, Kept, Pushed, Dropped};

    // t on the stack and on the path, as a segment of its own, none of its successors passed.
    fn push(&mut self, graph: &Graph, t: usize)
        requires bounds { (t < length self.old.mark.now) × (self.old.top < length self.old.stack.now)
            × (self.old.depth < length self.old.path.now) × (self.old.segs < length self.old.start.now) }
        requires small { (self.old.top < max_states) × (t < graph.now.nodes) }
        ensures pushed { Pushed graph.now self.old self.new t }
        ensures same { Same self.old self.new }
    {
        self.mark[t] = (self.top + 1) as Word;
        self.stack[self.top] = t as Word;
        self.path[self.depth] = graph.first[t] as Word;
        self.start[self.segs] = self.top as Word;
        self.cur = self.top;
        self.top += 1;
        self.segs += 1;
        self.depth += 1;
    }

    // The place of the first successor of the current node that is new, behind those that were passed.
    fn next(&self, graph: &Graph) -> Option<usize>
        requires { InPass graph.now self.now × (0 < self.now.depth) }
        ensures place { NewPlace graph.now.first.now graph.now.targets.now (value self.now.mark.now) (value self.now.stack.now self.now.cur)
            (unwrap_or result (value graph.now.first.now (value self.now.stack.now self.now.cur + 1))) }
        ensures some { IfSome result (λ i. i < value graph.now.first.now (value self.now.stack.now self.now.cur + 1)) }
    {
        let v = usize::from(self.stack[self.cur]);
        let from = usize::from(self.path[self.depth - 1]);
        let end = graph.first[v + 1] as usize;
        for i in from..end {
            if self.mark[usize::from(graph.targets[i])] == 0 {
                return Some(i);
            }
        }
        None
    }

    // The lowest place on the stack of a successor of the current node, or top.
    #[tactic(auto, using(crate::proofs::Scans::low_more, crate::proofs::Scans::low_all))]
    fn lowest(&self, graph: &Graph) -> usize
        requires { InPass graph.now self.now × (0 < self.now.depth) }
        ensures { Low (graph_in graph.now) (value self.now.mark.now) (value self.now.stack.now self.now.cur) self.now.top result }
    {
        let mut low = self.top;
        for &t in graph.row(usize::from(self.stack[self.cur])) {
            low = low_at(self.mark, usize::from(t), low);
        }
        low
    }

    // How many segments are left when those that start above w join that of w.
    fn merged(&self, w: usize) -> usize
        requires { (0 < self.now.segs) × (self.now.segs ≤ length self.now.start.now) × (value self.now.start.now 0 ≡ 0) }
        ensures { Merged (value self.now.start.now) self.now.segs w result }
    {
        let mut r = self.segs;
        // A while: it goes down only as far as segments start above w.
        while w < usize::from(self.start[r - 1]) {
            r -= 1;
        }
        r
    }

    // The larger of h and one more than the largest height of a finished successor of v.
    #[tactic(auto, using(crate::proofs::Scans::most_more, crate::proofs::Scans::most_all))]
    fn height_from(&self, graph: &Graph, v: usize, h: usize) -> usize
        requires { (length self.now.mark.now ≡ graph.now.nodes) × (v < graph.now.nodes) }
        ensures { MostFrom (graph_in graph.now) graph.now.nodes (value self.now.mark.now) v h result }
    {
        let mut most = h;
        for &t in graph.row(v) {
            most = height_at(self.mark, graph.nodes, usize::from(t), most);
        }
        most
    }

    // The same from 0 over the nodes from the current one to the top of the stack.
    fn height(&self, graph: &Graph) -> usize
        requires lengths { (length self.now.mark.now ≡ graph.now.nodes) × (self.now.top ≤ length self.now.stack.now) × (self.now.cur ≤ self.now.top) }
        requires nodes { (p : ℕ) → p < self.now.top → value self.now.stack.now p < graph.now.nodes }
        ensures { Most (graph_in graph.now) graph.now.nodes (value self.now.mark.now) (value self.now.stack.now) self.now.cur self.now.top result }
    {
        let mut most = 0;
        for &v in &self.stack[self.cur..self.top] {
            most = self.height_from(graph, usize::from(v), most);
        }
        most
    }

    // x as the mark of the nodes from the current one to the top of the stack.
    fn paint(&mut self, x: Word)
        requires lengths { (self.old.top ≤ length self.old.stack.now) × (self.old.cur ≤ self.old.top) }
        requires nodes { (p : ℕ) → p < self.old.top → value self.old.stack.now p < length self.old.mark.now }
        ensures painted { Painted (value self.old.mark.now) (value self.new.mark.now) (value self.old.stack.now) self.old.cur self.old.top x }
        ensures kept { Kept self.old self.new }
        ensures same { Same self.old self.new }
    {
        // By places: with a part of the stack lent while marks behind the same reference are written it did not prove.
        for p in self.cur..self.top {
            self.mark[usize::from(self.stack[p])] = x;
        }
    }

    // The top segment, from the current node, finished; w is the lowest place on the stack of a successor of the current node, and before is the
    // place of the node before it on the path.
    fn pop(&mut self, graph: &Graph, w: usize, before: usize)
        requires lengths { (length self.old.mark.now ≡ graph.now.nodes) × (length self.old.stack.now ≡ graph.now.nodes) }
        requires cur_le_top { (self.old.cur ≤ self.old.top) × (self.old.top ≤ graph.now.nodes) × (0 < self.old.segs) × (0 < self.old.depth) }
        requires nodes { (p : ℕ) → p < self.old.top → value self.old.stack.now p < graph.now.nodes }
        requires heights { (t : ℕ) → t < graph.now.nodes → graph.now.nodes < value self.old.mark.now t
            → height_in graph.now.nodes (value self.old.mark.now t) < graph.now.nodes }
        ensures dropped { Dropped self.old self.new before }
        ensures popped { Popped (graph_in graph.now) graph.now.nodes (value self.old.mark.now) (value self.new.mark.now)
            (value self.old.stack.now) self.old.cur self.old.top w }
        ensures same { Same self.old self.new }
    {
        // One more where a successor of the segment's first node is on the stack.
        let c = usize::from(w < self.top);
        let x = graph.nodes + 1 + (2 * self.height(graph) + c);
        self.paint(x as Word);
        self.top = self.cur;
        self.segs -= 1;
        self.depth -= 1;
        self.cur = before;
    }

    // The place on the stack of the node before the current one on the path: the first stands at place 0, each other is the successor that was
    // passed last.
    fn place_before(&self, graph: &Graph) -> usize
        requires { (0 < self.now.depth) × (self.now.depth ≤ length self.now.path.now)
            × ((i : ℕ) → i + 2 ≡ self.now.depth - 1 → Entered graph.now.targets.now self.now.mark.now self.now.path.now i) }
        ensures value { self.now.depth - 1 < 2 → result ≡ 0 }
        ensures by_index { (i : ℕ) → i + 2 ≡ self.now.depth - 1
            → suc result ≡ value self.now.mark.now (value graph.now.targets.now (value self.now.path.now i - 1)) }
    {
        let last = self.depth - 1;
        if last < 2 {
            return 0;
        }
        let i = usize::from(self.path[last - 2]);
        let t = usize::from(graph.targets[i - 1]);
        usize::from(self.mark[t]) - 1
    }

    // Back from the current node, which has no new successor.
    fn retreat(&mut self, graph: &Graph)
        requires pass { InPass graph.now self.old }
        requires depth_nonzero { (0 < self.old.depth) × ((t : ℕ) → (graph_in graph.now).flow (value self.old.stack.now self.old.cur) t ≡ true
            → value self.old.mark.now t ≡ 0 → ⊥) }
        ensures pass { InPass graph.now self.new }
        ensures moved { Moved graph.now.nodes self.old.mark.now self.new.mark.now self.old.depth self.new.depth }
        ensures same { Same self.old self.new }
    {
        let before = self.place_before(graph);
        let w = self.lowest(graph);
        self.segs = self.merged(w);
        if usize::from(self.start[self.segs - 1]) == self.cur {
            self.pop(graph, w, before);
        } else {
            self.depth -= 1;
            self.cur = before;
        }
    }

    // One step of the pass: on to a new node, or back.
    fn advance(&mut self, graph: &Graph)
        requires pass { InPass graph.now self.old }
        requires depth_nonzero { 0 < self.old.depth }
        ensures pass { InPass graph.now self.new }
        ensures moved { Moved graph.now.nodes self.old.mark.now self.new.mark.now self.old.depth self.new.depth }
        ensures same { Same self.old self.new }
    {
        match self.next(graph) {
            Some(i) => {
                self.path[self.depth - 1] = (i + 1) as Word;
                self.push(graph, usize::from(graph.targets[i]));
            }
            None => self.retreat(graph),
        }
    }

    // Steps until the path is empty.
    fn drain(&mut self, graph: &Graph)
        requires { InPass graph.now self.old }
        ensures idle { Idle graph.now self.new }
        ensures no_new { NoNew graph.now.nodes self.old.mark.now self.new.mark.now }
        ensures same { Same self.old self.new }
    {
        // A while: how many steps there will be is not known beforehand.
        while 0 < self.depth {
            self.advance(graph);
        }
    }

    // From a node that was not reached before to all that it reaches.
    fn explore(&mut self, graph: &Graph, root: usize)
        requires idle { Idle graph.now self.old }
        requires root { root < graph.now.nodes }
        ensures idle { Idle graph.now self.new }
        ensures no_new { NoNew graph.now.nodes self.old.mark.now self.new.mark.now × (value self.new.mark.now root ≡ 0 → ⊥) }
        ensures same { Same self.old self.new }
    {
        if self.mark[root] == 0 {
            self.push(graph, root);
            self.drain(graph);
        }
    }

    // From each node in turn.
    fn explore_all(&mut self, graph: &Graph)
        requires { Idle graph.now self.old }
        ensures idle { Idle graph.now self.new }
        ensures reached { (s : ℕ) → s < graph.now.nodes → value self.new.mark.now s ≡ 0 → ⊥ }
        ensures same { Same self.old self.new }
    {
        for s in 0..graph.nodes {
            self.explore(graph, s);
        }
    }
}

// For each of the n nodes twice its height, and one more where it lies on a closed walk, into mark. What the four slices held before does not
// matter; what stack, path and start hold afterwards is left over from the pass and means nothing.
pub fn components(
    first: &[u32],
    targets: &[Word],
    mark: &mut [Word],
    stack: &mut [Word],
    path: &mut [Word],
    start: &mut [Word],
    n: usize,
)
    requires graph_lists { GraphLists first.now targets.now n }
    requires mark_len { (length mark.old ≡ n) × (length stack.old ≡ n) × (length path.old ≡ n) × (length start.old ≡ n) }
    ensures { Marks first.now targets.now n mark.new }
{
    mark.fill(0);
    let graph = Graph {
        first,
        targets,
        nodes: n,
    };
    let mut pass = Pass {
        mark,
        stack,
        path,
        start,
        top: 0,
        segs: 0,
        depth: 0,
        cur: 0,
    };
    pass.explore_all(&graph);
    settle(pass.mark, n);
}
