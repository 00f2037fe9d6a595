// Small graphs as data. A line of standard input is a graph, its numbers set apart by commas: what all lent slices hold at first; the number n of nodes;
// n + 1 places, the steps of node p being those from place p up to place p + 1; and the steps, each by the node that it leads to. A line that begins with
// '#' is a comment. Every line is written back, a graph with what the searches find behind it: the mark of each node, twice its height and one more
// on a closed walk; and for each node the fewest steps of a closed walk and the nodes that the least of these comes to, or 0.
#![tactic(auto)]

mod shape;

ghost use Rattle.std.specs.Prelude.{◌≡◌, ◌+◌, ◌≤◌, ◌<◌, min, length};
ghost use Rattle.component.specs.Marks.{GraphLists};
ghost use Rattle.printing.specs.Text.{Grows};

use limits::Word;
use lines::{after, field, letter, line_end};
use printing::{put, say};
use reading::read_full;
use shape::shaped;
use std::io;
use std::io::Write;

// Bytes of all lines.
const TEXT: usize = 4096;

const NODES: usize = 8;

const STEPS: usize = 16;

// The first n numbers.
fn show_words<W: Write>(to: &mut W, numbers: &[Word; NODES], n: usize) -> io::Result<()>
    ensures grows { Grows (W.contents to.old) (W.contents to.new) }
{
    for &number in numbers.iter().take(n) {
        put(to, b" ", u64::from(number))?;
    }
    Ok(())
}

// ---- The searches.

// A graph as the searches require it, and what all lent slices hold at first.
#[derive(Clone, Copy)]
struct Case<'a> {
    first: &'a [u32],
    targets: &'a [Word],
    nodes: usize,
    dirt: Word,
    ghost lists: { GraphLists first.now targets.now nodes },
    ghost small: { nodes ≤ 8 },
}

impl<'a> Case<'a> {
    fn marks<W: Write>(&self, to: &mut W) -> io::Result<()>
        ensures grows { Grows (W.contents to.old) (W.contents to.new) }
    {
        let n = self.nodes;
        let mut mark = [self.dirt; NODES];
        let mut stack = [self.dirt; NODES];
        let mut path = [self.dirt; NODES];
        let mut start = [self.dirt; NODES];
        component::components(
            self.first,
            self.targets,
            &mut mark[..n],
            &mut stack[..n],
            &mut path[..n],
            &mut start[..n],
            n,
        );
        show_words(to, &mark, n)
    }

    fn walk<W: Write>(&self, to: &mut W, q: usize) -> io::Result<()>
        requires { q < self.now.nodes }
        ensures grows { Grows (W.contents to.old) (W.contents to.new) }
    {
        let n = self.nodes;
        let mut level = [self.dirt; NODES];
        let mut queue = [self.dirt; NODES];
        let mut path = [self.dirt; NODES];
        let steps = closed_walk::closed_walk(
            self.first,
            self.targets,
            q,
            &mut level[..n],
            &mut queue[..n],
            &mut path[..n],
        );
        put(to, b" ", steps as u64)?;
        show_words(to, &path, steps)
    }

    // From each node.
    fn walks<W: Write>(&self, to: &mut W) -> io::Result<()>
        ensures grows { Grows (W.contents to.old) (W.contents to.new) }
    {
        for q in 0..self.nodes {
            say(to, b";")?;
            self.walk(to, q)?;
        }
        Ok(())
    }
}

fn search<W: Write>(
    to: &mut W,
    first: &[u32],
    targets: &[Word],
    nodes: usize,
    dirt: Word,
) -> io::Result<()>
    requires { nodes ≤ 8 }
    ensures grows { Grows (W.contents to.old) (W.contents to.new) }
{
    if !shaped(first, targets, nodes) {
        return say(to, b" no graph");
    }
    let case = Case {
        first,
        targets,
        nodes,
        dirt,
    };
    case.marks(to)?;
    case.walks(to)
}

// ---- Lines.

// The numbers from field 2 on.
fn read_places(line: &[u8], first: &mut [u32])
    requires { length first.old ≤ 16 }
{
    for (i, place) in first.iter_mut().enumerate() {
        *place = u32::from(field(line, i + 2, 0));
    }
}

// The numbers from field k on.
fn read_targets(line: &[u8], k: usize, targets: &mut [Word])
    requires { (length targets.old ≤ 16) × (k ≤ 16) }
{
    for (i, target) in targets.iter_mut().enumerate() {
        *target = field(line, k + i, 0);
    }
}

fn graph<W: Write>(to: &mut W, line: &[u8]) -> io::Result<()>
    ensures grows { Grows (W.contents to.old) (W.contents to.new) }
{
    let n = usize::from(field(line, 1, 0));
    if NODES < n {
        return say(to, b" no graph");
    }
    let mut first = [0u32; NODES + 1];
    let mut targets: [Word; STEPS] = [0; STEPS];
    read_places(line, &mut first);
    read_targets(line, n + 3, &mut targets);
    let end = n + 1;
    search(to, &first[..end], &targets, n, field(line, 0, 0))
}

fn answer<W: Write>(to: &mut W, line: &[u8]) -> io::Result<()>
    ensures grows { Grows (W.contents to.old) (W.contents to.new) }
{
    say(to, line)?;
    if letter(line, 0) == b'#' {
        return say(to, b"\n");
    }
    say(to, b":")?;
    graph(to, line)?;
    say(to, b"\n")
}

fn cases<W: Write>(to: &mut W, text: &[u8]) -> io::Result<()>
    ensures grows { Grows (W.contents to.old) (W.contents to.new) }
{
    let mut p = 0;
    // A while: p goes from line to line.
    while p < text.len() {
        let end = line_end(text, p);
        answer(to, &text[p..end])?;
        p = after(text, end);
    }
    Ok(())
}

fn main(rt: HostRuntime) -> io::Result<()> {
    let mut text = [0u8; TEXT];
    let n = read_full(&mut rt.reader(), &mut text)?;
    cases(&mut io::writer(&rt), &text[..n])
}
