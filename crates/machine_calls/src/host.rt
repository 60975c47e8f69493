//! The procedures of the host, and the one for which a wanted item stands.

ghost use Rattle.std.specs.Prelude.{◌≡◌, IsSome, Some, option_map};
ghost use Rattle.machine_rules.specs.LookUps.{host_named, host_of};
ghost use Rattle.machine_calls.specs.Hosts.{host_is};

use object_files::Image;

/// A procedure of the host that writes: a character, a string, a signed number.
#[derive(Clone, Copy)]
pub enum Writing {
    Char,
    Text,
    Decimal,
}

/// A procedure of the host that reads: the next byte of the input, or whether none is left.
#[derive(Clone, Copy)]
pub enum Reading {
    Next,
    AtEnd,
}

/// A procedure of the host.
#[derive(Clone, Copy)]
pub enum HostProcedure {
    Write(Writing),
    Read(Reading),
}

// The one of a name that is one of theirs: each has a length of its own.
#[inline(always)]
fn host_named(name: &[u8]) -> HostProcedure
    requires { IsSome (host_named name.now) }
    ensures { host_named name.now ≡ Some (host_is result) }
{
    let length = name.len();
    if length == 9 {
        HostProcedure::Write(Writing::Char)
    } else if length == 8 {
        HostProcedure::Read(Reading::Next)
    } else if length == 10 {
        HostProcedure::Read(Reading::AtEnd)
    } else if length == 11 {
        HostProcedure::Write(Writing::Text)
    } else {
        HostProcedure::Write(Writing::Decimal)
    }
}

/// The one for which an entry of the wanted items stands.
#[inline(always)]
pub(crate) fn host_of(image: &Image, wanted: u32) -> HostProcedure
    requires { IsSome (host_of image.now wanted) }
    ensures { host_of image.now wanted ≡ Some (host_is result) }
{
    let item = &image.wanted.as_slice()[wanted as usize].item;
    host_named(item.name.bytes())
}
