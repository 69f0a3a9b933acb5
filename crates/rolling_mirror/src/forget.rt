//! A mirror of a session without an end forgets what lies behind its last copy.

ghost use Rattle.std.specs.Prelude.{◌≡◌};
ghost use Rattle.sync_model.specs.State.{MirrorState};
ghost use Rattle.rolling_mirror.specs.Rolling.{IsWindowOf, rolled, forgets, is_full, ready};

use crate::names::rename;
use crate::rolling::RollingMirror;
use game_trait::Game;

impl<G: Game> RollingMirror<G> {
    /// Forgets all that lies behind the last copy: the window begins at its clock, with its world.
    /// There is room for as many more commands as were forgotten. Nothing that is seen changes.
    pub fn forget(&mut self)
        ensures state { self.new ≡ rolled G.rules self.old }
        ensures window { (whole : MirrorState G)
            → IsWindowOf G.rules whole self.old
            → IsWindowOf G.rules whole self.new }
    {
        self.stack.always();
        let passed = self.last_clock();
        self.stack.forget();
        self.base += passed;
        self.clock -= passed;
        self.stack.always();
        rename(&mut self.names, self.stack.accepted());
    }

    // Forgets where a tick does.
    pub(crate) fn make_ready(&mut self)
        ensures state { self.new ≡ ready G.rules self.old }
        ensures window { (whole : MirrorState G)
            → IsWindowOf G.rules whole self.old
            → IsWindowOf G.rules whole self.new }
    {
        if self.forgets() {
            self.forget();
        }
    }

    // Whether a tick forgets.
    fn forgets(&self) -> bool
        ensures { result ≡ forgets self.now }
    {
        let passed = self.last_clock();
        0 < passed && (self.keep <= passed || self.is_full() || self.stack.spare() == 0)
    }

    // Whether the clock stands at the window's last tick.
    pub(crate) fn is_full(&self) -> bool
        ensures { result ≡ is_full self.now }
    {
        let window = self.stagger().length();
        self.clock + 1 == window
    }
}
