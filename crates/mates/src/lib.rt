// The give that matches a take (01, "Rules of a well-formed plan"), found by depth in the take's job; and where the
// job's lines end, if there is none.
#![tactic(auto)]

ghost use Rattle.std.specs.Prelude.{◌≡◌, ◌-◌, ◌^◌, ◌<◌};
ghost use Rattle.mates.specs.Found.{passed_by};
ghost use Rattle.mates.specs.Span.{span_of};

// What a line of its job does to the search for a mate at this depth: a take or a held line goes one deeper, a give
// comes one back. None where the line is the mate: a give at depth 0.
fn passed(n: u32, depth: usize) -> Option<usize>
    requires { depth < 2 ^ 64 - 1 }
    ensures { result ≡ passed_by n depth }
{
    if line::opens(n) {
        return Some(depth + 1);
    }
    if line::is_give(n) {
        return depth.checked_sub(1);
    }
    Some(depth)
}

// How far what was taken is held: to the give at this position, or, where none matches, to the end of the job's lines,
// which is the position after them. (It is no Result: to be kept is no failure, and both cases have a position.)
#[derive(Clone, Copy, Debug, PartialEq, Eq)]
pub enum Span {
    Given(usize),
    Kept(usize),
}

impl Span {
    ghost use Rattle.mates.specs.Span.{stop_of};

    // Where it ends.
    pub fn stop(self) -> usize
        ensures { result ≡ stop_of self }
    {
        match self {
            Span::Given(m) => m,
            Span::Kept(e) => e,
        }
    }
}

// How far what the take at position i takes is held.
pub fn span_of(plan: &[u32], i: usize) -> Span
    ensures { result ≡ span_of plan.now i }
{
    let Some(&take) = plan.get(i) else {
        return Span::Kept(plan.len());
    };
    let j = line::job(take);
    let mut depth: usize = 0;
    let after = i + 1;
    for (past, &n) in plan[after..].iter().enumerate() {
        if line::job(n) != j {
            return Span::Kept(after + past);
        }
        let Some(d) = passed(n, depth) else {
            return Span::Given(after + past);
        };
        depth = d;
    }
    Span::Kept(plan.len())
}
