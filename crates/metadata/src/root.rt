//! The metadata root (ECMA-335 II.24.2.1).

ghost use Rattle.std.specs.Prelude.{◌≡◌, ◌+◌, ◌≤◌, ◌<◌, ◌^◌, length, None, Some, IfErr, IfOk, OnOk};
ghost use Rattle.rtr_bytes.specs.Checks.{first_fault};
ghost use Rattle.metadata.specs.Checks.{root_checks};
ghost use Rattle.metadata.specs.Streams.{end_of, headers_at, stream_count};
ghost use Rattle.metadata.specs.Steps.{IsInside};

use crate::check::Check;
use rtr_bytes::{Fault, Span, ensure, u16_or_zero, u32_or_zero};

/// Signature: "BSJB", read lowest byte first.
const SIGNATURE: u32 = 0x424A_5342;
/// The bytes of the root but for the version's text.
const FIXED_SIZE: u32 = 20;
/// Where the length of the version's text is in the root.
const VERSION_LENGTH: u32 = 12;
/// Where the number of streams is in the root, but for the version's text before it.
const STREAMS: u32 = 18;
/// The most bytes that the version's text has.
const LONGEST_VERSION: u32 = 255;

/// Where the stream headers are.
#[derive(Clone, Copy, Debug)]
pub(crate) struct Root {
    /// The file offset of the first header.
    pub headers_at: u32,
    /// How many streams there are.
    pub stream_count: u16,
}

impl Root {
    /// The root of the metadata at a range of the file.
    pub(crate) fn read(bytes: &[u8], span: Span) -> Result<Root, Fault>
        requires small { length bytes.now ≤ 2 ^ 31 }
        requires inside { IsInside span (length bytes.now) }
        ensures fault { IfErr result (λ f. first_fault (root_checks span) bytes.now ≡ Some f) }
        ensures ok { OnOk result (first_fault (root_checks span) bytes.now ≡ None) }
        ensures headers { IfOk result (λ root. root.headers_at ≡ headers_at bytes.now span.start) }
        ensures count { IfOk result (λ root. root.stream_count ≡ stream_count bytes.now span.start) }
        ensures within { IfOk result (λ root. root.headers_at ≤ end_of span) }
        ensures whole { OnOk result (end_of span ≤ length bytes.now) }
    {
        let start = span.start;
        let is_root = span.len >= FIXED_SIZE && u32_or_zero(bytes, start) == SIGNATURE;
        ensure(is_root, Check::Root as u16, start)?;
        let version = u32_or_zero(bytes, start + VERSION_LENGTH);
        let fits = version <= LONGEST_VERSION
            && version % 4 == 0
            && FIXED_SIZE + version <= span.len;
        ensure(fits, Check::Version as u16, start + VERSION_LENGTH)?;
        Ok(Root {
            headers_at: start + FIXED_SIZE + version,
            stream_count: u16_or_zero(bytes, start + STREAMS + version),
        })
    }
}
