//! What is due, and which of several that are due comes first.

ghost use Rattle.std.specs.Prelude.{◌≡◌, IsTrue, IsFalse};
ghost use Rattle.net_model.specs.stated_runs.DueSteps.{RankAtMost};
ghost use Rattle.sim_servers.specs.Firsts.{kind_number, place_of, IsNoLater, IsFirstOf};

use fraction128::{Frac, is_less};

/// What is due. At equal times they come in this order.
#[derive(Clone, Copy)]
pub enum DueKind {
    /// Work goes on.
    Resume,
    /// The packet under way leaves.
    Leave,
    /// A packet on a link reaches a server.
    Reach,
    /// The next packet of the trace enters.
    Enter,
    /// A packet is put under way, or a queue is visited.
    Start,
}

/// A step that is due. For what enters the server is 0, and the packet is 0 but for what reaches a server or enters.
#[derive(Clone, Copy)]
pub struct Due {
    pub time: Frac,
    pub kind: DueKind,
    pub server: u32,
    pub packet: u32,
}

fn number_of(kind: DueKind) -> u8
    ensures { result ≡ kind_number kind }
{
    match kind {
        DueKind::Resume => 0,
        DueKind::Leave => 1,
        DueKind::Reach => 2,
        DueKind::Enter => 3,
        DueKind::Start => 4,
    }
}

/// Whether a comes no later than b if both are due at one time.
fn goes_first(a: &Due, b: &Due) -> bool
    ensures yes { IsTrue result → RankAtMost (place_of a.now) (place_of b.now) }
    ensures no { IsFalse result → RankAtMost (place_of b.now) (place_of a.now) }
{
    let (left, right) = (number_of(a.kind), number_of(b.kind));
    if left != right {
        return left < right;
    }
    if a.server != b.server {
        return a.server < b.server;
    }
    a.packet <= b.packet
}

/// Whether a comes no later than b.
fn is_first(a: &Due, b: &Due) -> bool
    ensures yes { IsTrue result → IsNoLater a.now b.now }
    ensures no { IsFalse result → IsNoLater b.now a.now }
{
    if is_less(a.time, b.time) {
        return true;
    }
    if is_less(b.time, a.time) {
        return false;
    }
    goes_first(a, b)
}

/// Puts what is due in the place of the first so far, if it comes before that.
pub fn keep_first(first: &mut Option<Due>, other: Option<Due>)
    ensures { IsFirstOf first.old other first.new }
{
    match other {
        None => {}
        Some(due) => match first {
            None => *first = Some(due),
            Some(known) => {
                if is_first(known, &due) {
                    return;
                }
                *known = due;
            }
        },
    }
}
