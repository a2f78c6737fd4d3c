//! Between whom a frame goes, and what its header says.
ghost use Rattle.std.specs.Prelude.{◌≡◌};
ghost use Rattle.sl_frames.specs.Frames.{asks_rightly, goes, has_used_alone, is_sound, of_answer, of_operation, of_request, used_or_zero, uses};

use crate::actors::{
    is_any_server, is_data_server, is_directory_server, is_the_coordinator, is_the_proxy,
};
use crate::body::Body;
use crate::frame::{Frame, Uses};

const FENCE_ALONE: Uses = Uses {
    tag: false,
    low: false,
    op: false,
    boot: false,
    arrival: false,
};

fn uses_of_request(boot: bool) -> Uses
    ensures { result ≡ of_request boot }
{
    Uses {
        tag: true,
        low: true,
        op: false,
        boot,
        arrival: true,
    }
}

fn uses_of_answer(boot: bool) -> Uses
    ensures { result ≡ of_answer boot }
{
    Uses {
        tag: true,
        low: false,
        op: false,
        boot,
        arrival: false,
    }
}

fn uses_of_operation(boot: bool) -> Uses
    ensures { result ≡ of_operation boot }
{
    Uses {
        tag: false,
        low: false,
        op: true,
        boot,
        arrival: false,
    }
}

/// Which fields of its header a frame of this body uses, that goes from one actor to another.
pub fn used_fields(from: u8, to: u8, body: &Body) -> Uses
    ensures { result ≡ uses from to body.now }
{
    match body {
        Body::Hello | Body::Welcome => FENCE_ALONE,
        Body::Forward { .. } => uses_of_request(true),
        Body::Ask(_) | Body::List { .. } => uses_of_request(false),
        Body::Mint { .. } | Body::Intent(_) => uses_of_request(false),
        Body::Packet(_) => uses_of_answer(is_data_server(from as u32)),
        Body::Found(_) | Body::Listed { .. } => uses_of_answer(false),
        Body::Minted { .. } | Body::Decided { .. } => uses_of_answer(false),
        Body::Lock(_) => uses_of_operation(true),
        Body::Grant | Body::Ack => uses_of_operation(is_data_server(from as u32)),
        Body::Refuse => {
            if is_the_proxy(to) {
                uses_of_answer(true)
            } else {
                uses_of_operation(true)
            }
        }
        Body::Apply | Body::Release => uses_of_operation(false),
    }
}

fn may_go(from: u8, to: u8, body: &Body) -> bool
    ensures { result ≡ goes from to body.now }
{
    match body {
        Body::Hello | Body::Intent(_) => is_the_proxy(from) && is_the_coordinator(to),
        Body::Welcome | Body::Decided { .. } => is_the_coordinator(from) && is_the_proxy(to),
        Body::Forward { .. } => is_the_proxy(from) && is_any_server(to as u32),
        Body::Packet(_) => is_any_server(from as u32) && is_the_proxy(to),
        Body::Ask(_) | Body::List { .. } => is_the_proxy(from) && is_directory_server(to as u32),
        Body::Mint { .. } => is_the_proxy(from) && is_directory_server(to as u32),
        Body::Found(_) | Body::Listed { .. } => {
            is_directory_server(from as u32) && is_the_proxy(to)
        }
        Body::Minted { .. } => is_directory_server(from as u32) && is_the_proxy(to),
        Body::Lock(_) | Body::Apply => is_the_coordinator(from) && is_any_server(to as u32),
        Body::Release => is_the_coordinator(from) && is_any_server(to as u32),
        Body::Grant | Body::Ack => is_any_server(from as u32) && is_the_coordinator(to),
        Body::Refuse => {
            is_data_server(from as u32) && (is_the_proxy(to) || is_the_coordinator(to))
        }
    }
}

fn is_asked_rightly(to: u8, body: &Body) -> bool
    ensures { result ≡ asks_rightly to body.now }
{
    match body {
        Body::Lock(work) => work.may_be_asked_of(to),
        _ => true,
    }
}

fn is_used_or_zero(used: bool, field: u64) -> bool
    ensures { result ≡ used_or_zero used field }
{
    used || field == 0
}

impl Frame {
    /// Whether it uses these fields of its header alone.
    fn uses_alone(&self, used: Uses) -> bool
        ensures { result ≡ has_used_alone used self.now }
    {
        is_used_or_zero(used.tag, self.tag)
            && is_used_or_zero(used.low, self.low)
            && is_used_or_zero(used.op, self.op)
            && is_used_or_zero(used.boot, self.boot)
            && is_used_or_zero(used.arrival, self.arrival)
    }

    /// Whether it goes between actors of its kind, uses only the fields of its header that its kind has, and asks its
    /// server only for what that may be asked for.
    pub fn is_well_formed(&self) -> bool
        ensures { result ≡ is_sound self.now }
    {
        may_go(self.from, self.to, &self.body)
            && self.uses_alone(used_fields(self.from, self.to, &self.body))
            && is_asked_rightly(self.to, &self.body)
    }
}
