//! What a scheduler is.

ghost use Rattle.std.specs.Prelude.{◌≡◌, ℕ, Some, None};
ghost use Rattle.rational.specs.Rational.{ℚ};
ghost use Rattle.run_laws.specs.Cards.{Card, Arrives, Works, Leaves};
ghost use Rattle.run_laws.specs.Servers.{Discipline, ServerState, Under};
ghost use Rattle.run_laws.specs.Next.{next};
ghost use Rattle.queue_sched.specs.Turns.{Starts, MayJoin, IsCard, IsIdle, IsBusy, Finishes};

use crate::turn::Turn;

/// The queues of one server, and the packet under way. (Le Boudec and Thiran; deficit round robin is Shreedhar and
/// Varghese's.)
pub trait Scheduler {
    /// The discipline by which it serves its queues.
    ghost discipline: { Self → Discipline };

    /// How many packets it has room for.
    ghost room: { Self → ℕ };

    /// Whether it stands for a server in this state. A scheduler knows nothing of times and flows, and so stands for
    /// many states at once: each call asks for one of them, and tells of all.
    ghost StandsFor: { Self → ServerState → Type 0 };

    /// A packet of so many bits joins its queue. It is in no queue yet, and packet and queue are in range.
    fn arrive(&mut self, packet: u32, queue: u32, bits: u32)
        requires { MayJoin (StandsFor self.old) (discipline self.old) (room self.old) packet queue }
        ensures discipline { discipline self.new ≡ discipline self.old }
        ensures room { room self.new ≡ room self.old }
        ensures joined { (σ : ServerState) (c : Card) (t : ℚ) → StandsFor self.old σ → IsCard c packet queue bits
            → StandsFor self.new (next (discipline self.old) σ (Arrives c t)) };

    /// The next turn of a server with no packet under way; none exactly where all queues are empty. A packet that is
    /// sent stays in its queue until it leaves.
    fn start(&mut self) -> Option<Turn>
        requires { IsIdle (StandsFor self.old) }
        ensures discipline { discipline self.new ≡ discipline self.old }
        ensures room { room self.new ≡ room self.old }
        ensures turn { (σ : ServerState) → StandsFor self.old σ → σ.under ≡ None
            → Starts (discipline self.old) (StandsFor self.new) σ result };

    /// The packet under way, of which there is one, leaves its queue.
    fn finish(&mut self) -> u32
        requires { IsBusy (StandsFor self.old) }
        ensures discipline { discipline self.new ≡ discipline self.old }
        ensures room { room self.new ≡ room self.old }
        ensures left { (σ : ServerState) (u : Under) → StandsFor self.old σ → σ.under ≡ Some u
            → Finishes (discipline self.old) (StandsFor self.new) σ u result };

    /// More work on the packet under way changes nothing here.
    ghost goes_on: { (s : Self) (σ : ServerState) (u : Under) (a b w : ℚ) → StandsFor s σ → σ.under ≡ Some u
        → StandsFor s (next (discipline s) σ (Works u.card a b w)) };
}
