//! The first line of a record, which names its version.
ghost use Rattle.std.specs.Prelude.{◌≡◌, true, IfSome};
ghost use Rattle.lawful_history.specs.Versions.{is_version};
ghost use Rattle.record_text.specs.Versions.{first_line, version_in};

/// The first line of a record of this version.
pub fn first_line(version: u32) -> &'static [u8]
    requires { is_version version ≡ true }
    ensures { result.now ≡ first_line version }
{
    if version == 1 {
        b"record 1"
    } else {
        b"record 2"
    }
}

/// The version whose records begin with this line.
pub fn version_in(line: &[u8]) -> Option<u32>
    ensures version { result ≡ version_in line.now }
    ensures known { IfSome result (λ version. is_version version ≡ true) }
{
    if line == first_line(1) {
        Some(1)
    } else if line == first_line(2) {
        Some(2)
    } else {
        None
    }
}
