//! What is armed on a disk in memory, and what is counted of it.
ghost use Rattle.std.specs.Prelude.{◌≡◌, ◌+◌, ◌%◌, ◌^◌, Some};
ghost use Rattle.sl_disk.specs.Shelf.{due, one_on, Rose};
ghost use Rattle.sl_disk.specs.declared.shelf.Armed.{Armed};

use crate::shelf::{Arm, Armed};

#[derive(Clone, Copy)]
pub(crate) struct Script {
    pub(crate) armed: Option<Armed>,
    pub(crate) arms: u64,
    pub(crate) last_arm: Option<Armed>,
    pub(crate) crashes: u64,
    pub(crate) last_crash: Option<u64>,
    pub(crate) faults: u64,
    pub(crate) stops: u64,
}

impl Script {
    ghost use Rattle.sl_disk.specs.Record.{no_script};

    /// Nothing is armed.
    pub(crate) fn new() -> Script
        ensures { result ≡ no_script }
    {
        Script {
            armed: None,
            arms: 0,
            last_arm: None,
            crashes: 0,
            last_crash: None,
            faults: 0,
            stops: 0,
        }
    }

    /// What the next call does in place of its work.
    pub(crate) fn due(&self) -> Option<Arm>
        ensures { result ≡ due self.now.armed }
    {
        match self.armed {
            Some(armed) if armed.after <= 1 => Some(armed.how),
            _ => None,
        }
    }

    /// One call on.
    pub(crate) fn one_on(self) -> Script
        ensures { result ≡ record self { armed = one_on self.armed } }
    {
        let armed = match self.armed {
            Some(armed) if armed.after > 1 => Some(Armed {
                after: armed.after - 1,
                how: armed.how,
            }),
            _ => None,
        };
        Script { armed, ..self }
    }

    /// One call on, which failed.
    pub(crate) fn failed(self) -> Script
        ensures fault { Rose self.faults result.faults }
        ensures others { result ≡ record self { armed = one_on self.armed; faults = result.faults } }
    {
        let script = self.one_on();
        Script {
            faults: script.faults.saturating_add(1),
            ..script
        }
    }

    /// One call on, inside which the device stopped.
    pub(crate) fn stopped(self) -> Script
        ensures stop { Rose self.stops result.stops }
        ensures others { result ≡ record self { armed = one_on self.armed; stops = result.stops } }
    {
        let script = self.one_on();
        Script {
            stops: script.stops.saturating_add(1),
            ..script
        }
    }

    /// With this call armed.
    pub(crate) fn arm(self, after: u64, how: Arm) -> Script
        ensures { let armed : Armed = record { after = after; how = how } in result ≡ record self { armed = Some armed; arms = (self.arms + 1) % 2 ^ 64; last_arm = Some armed } }
    {
        let armed = Some(Armed { after, how });
        Script {
            armed,
            arms: self.arms.wrapping_add(1),
            last_arm: armed,
            ..self
        }
    }

    /// With one image more that `crash` left.
    pub(crate) fn crash(self, image: u64) -> Script
        ensures { result ≡ record self { crashes = (self.crashes + 1) % 2 ^ 64; last_crash = Some image } }
    {
        Script {
            crashes: self.crashes.wrapping_add(1),
            last_crash: Some(image),
            ..self
        }
    }
}
