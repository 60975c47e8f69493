//! Numbers as bytes.
ghost use Rattle.std.specs.Prelude.{◌≡◌, ◌^◌, ◌<◌, ◌≤◌, length};
ghost use Rattle.file_forms.specs.Forms.{number_in};

/// The number of these bytes, of which the highest stands first.
pub(crate) fn value(bytes: &[u8]) -> u64
    requires { length bytes.now ≤ 7 }
    ensures is { result ≡ number_in bytes.now }
    ensures below { result < 256 ^ length bytes.now }
{
    let mut value = 0;
    for byte in bytes {
        value = value * 256 + *byte as u64;
    }
    value
}
