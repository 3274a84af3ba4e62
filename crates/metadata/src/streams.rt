//! The streams of metadata (ECMA-335 II.24.2.2).

ghost use Rattle.std.specs.Prelude.{◌≡◌, ◌+◌, ◌≤◌, ◌<◌, ◌^◌, [], length, None, Some, ◌-◌, ◌==◌, not, min, take, drop, position, All, IfErr, IfOk, IfSome, OnOk, is_some, true};
ghost use Rattle.std.specs.Option.{option_copied};
ghost use Rattle.std.specs.Str.{bytes_eq};
ghost use Rattle.rtr_bytes.specs.Checks.{fault_or, first_fault, RefusedBy};
ghost use Rattle.metadata.specs.Checks.{stream_checks};
ghost use Rattle.metadata.specs.Streams.{end_of, first_cut, first_outside, first_repeated, header_at, header_named, header_of, headers_at, headers_from, headers_in, is_inside, next_header, span_of, stream_count, tables_name};
ghost use Rattle.metadata.specs.Steps.{AreInside, AreStreams};

use crate::check::Check;
use crate::names::Names;
use crate::root::Root;
use rtr_bytes::{Fault, ReadRefusal, Span, ensure, u32_or_zero};
use std::alloc::Global;
use std::marker::Model;

/// The bytes of a stream header before its name.
const NAME_OFFSET: u32 = 8;
/// The most bytes of a stream's name, with its zero.
const LONGEST_NAME: u32 = 32;

/// `#~`.
const TABLES: &[u8] = b"#~";
/// `#Strings`.
const STRINGS: &[u8] = b"#Strings";
/// `#US`.
const USER_STRINGS: &[u8] = b"#US";
/// `#GUID`.
const GUIDS: &[u8] = b"#GUID";
/// `#Blob`.
const BLOBS: &[u8] = b"#Blob";

/// A stream header. Contracts see its name as a list.
#[derive(Drop)]
struct StreamHeader<'a> {
    at: u32,
    offset: u32,
    size: u32,
    name: &'a [u8],
}

impl<'a> Model for StreamHeader<'a> {
    ghost use Rattle.metadata.specs.Streams.{StreamHeader};

    ghost Value = { StreamHeader };

    ghost view = { λ h. record { at = h.at; offset = h.offset; size = h.size; name = h.name.now } };
}

/// The first zero byte.
fn zero_in(bytes: &[u8]) -> Option<usize>
    ensures { result ≡ position (λ b. b == 0) bytes.now }
{
    bytes.iter().position(|byte| *byte == 0)
}

/// The bytes from a place on among which a name ends, up to the metadata's end.
fn window_at(bytes: &[u8], end: u32, at: u32) -> &[u8]
    requires whole { end ≤ length bytes.now }
    ensures { result.now ≡ take (min 32 (end - at)) (drop at bytes.now) }
{
    if at > end {
        return &[];
    }
    let most = LONGEST_NAME.min(end - at);
    &bytes[at as usize..(at + most) as usize]
}

impl<'a> StreamHeader<'a> {
    /// The header at a place, whose name has a length.
    fn named(bytes: &'a [u8], end: u32, at: u32, name_len: usize) -> Option<StreamHeader<'a>>
        requires small { length bytes.now ≤ 2 ^ 31 }
        requires whole { end ≤ length bytes.now }
        requires within { at ≤ end }
        requires short { name_len ≤ 32 }
        ensures header { result ≡ header_of bytes.now end at name_len }
        ensures next { IfSome result (λ h. next_header h ≤ end) }
    {
        let name_at = at + NAME_OFFSET;
        if name_at + (name_len as u32 + 4) / 4 * 4 > end {
            return None;
        }
        Some(StreamHeader {
            at,
            offset: u32_or_zero(bytes, at),
            size: u32_or_zero(bytes, at + 4),
            name: &bytes[name_at as usize..name_at as usize + name_len],
        })
    }

    /// The header at a place of metadata that ends at another. `None` where it passes that end, or its name has no zero
    /// among its first 32 bytes.
    #[tactic(auto, unfolding(crate::specs::Streams::header_at))]
    fn read(bytes: &'a [u8], end: u32, at: u32) -> Option<StreamHeader<'a>>
        requires small { length bytes.now ≤ 2 ^ 31 }
        requires whole { end ≤ length bytes.now }
        requires within { at ≤ end }
        ensures header { result ≡ header_at bytes.now end at }
        ensures next { IfSome result (λ h. next_header h ≤ end) }
    {
        let name_len = zero_in(window_at(bytes, end, at + NAME_OFFSET))?;
        StreamHeader::named(bytes, end, at, name_len)
    }

    /// The place of the header after it.
    fn next(&self) -> u32
        requires { next_header self.now < 2 ^ 32 }
        ensures { result ≡ next_header self.now }
    {
        self.at + NAME_OFFSET + (self.name.len() as u32 + 4) / 4 * 4
    }

    /// Whether the stream is in the metadata at a range.
    fn is_inside(&self, span: Span) -> bool
        ensures { result ≡ is_inside span self.now }
    {
        u64::from(self.offset) + u64::from(self.size) <= u64::from(span.len)
    }
}

/// The headers of the metadata at a range, once each is there.
fn read_headers<'a>(
    alloc: Global,
    bytes: &'a [u8],
    end: u32,
    root: Root,
) -> Result<Vec<StreamHeader<'a>>, ReadRefusal>
    requires small { length bytes.now ≤ 2 ^ 31 }
    requires whole { end ≤ length bytes.now }
    requires within { root.headers_at ≤ end }
    ensures fault { IfErr result (λ e. RefusedBy (fault_or 32 (first_cut bytes.now end root.headers_at root.stream_count) None) e) }
    ensures ok { OnOk result (first_cut bytes.now end root.headers_at root.stream_count ≡ None) }
    ensures headers { IfOk result (λ hs. hs.items ≡ headers_from bytes.now end root.headers_at root.stream_count) }
{
    let mut headers = Vec::new(alloc);
    let mut at = root.headers_at;
    'headers: for _i in 0..root.stream_count {
        match StreamHeader::read(bytes, end, at) {
            Some(header) => {
                at = header.next();
                headers.push(header)?;
            }
            None => return Err(Fault {
                check: Check::StreamHeader as u16,
                place: at,
            }
            .into()),
        }
    }
    Ok(headers)
}

/// Each stream is in the metadata at a range.
fn check_ranges(headers: &[StreamHeader<'_>], span: Span) -> Result<(), Fault>
    ensures fault { IfErr result (λ f. fault_or 33 (first_outside span headers.now) None ≡ Some f) }
    ensures ok { OnOk result (first_outside span headers.now ≡ None) }
{
    for header in headers {
        ensure(header.is_inside(span), Check::StreamRange as u16, header.at)?;
    }
    Ok(())
}

/// No stream has the name of an earlier one.
fn check_names(alloc: Global, headers: &[StreamHeader<'_>]) -> Result<(), ReadRefusal>
    ensures fault { IfErr result (λ e. RefusedBy (fault_or 34 (first_repeated [] headers.now) None) e) }
    ensures ok { OnOk result (first_repeated [] headers.now ≡ None) }
{
    let mut names = Names::new(alloc);
    for header in headers {
        let free = names.insert(header.name)?;
        ensure(free, Check::StreamName as u16, header.at)?;
    }
    Ok(())
}

/// The header of a name.
fn header_named<'h, 'a>(
    headers: &'h [StreamHeader<'a>],
    name: &[u8],
) -> Option<&'h StreamHeader<'a>>
    ensures { option_copied result ≡ header_named name.now headers.now }
{
    headers.iter().find(|header| header.name == name)
}

/// The stream of a name in the metadata at a range. One that is missing is empty.
fn span_named(headers: &[StreamHeader<'_>], name: &[u8], span: Span) -> Span
    requires inside { first_outside span headers.now ≡ None }
    requires reach { end_of span ≤ 2 ^ 31 }
    ensures span { result ≡ span_of span (header_named name.now headers.now) }
    ensures inside { end_of result ≤ end_of span }
{
    match header_named(headers, name) {
        Some(header) => Span {
            start: span.start + header.offset,
            len: header.size,
        },
        None => Span {
            start: span.start,
            len: 0,
        },
    }
}

/// Where the streams that are read are in the file. One that is missing is empty.
#[derive(Clone, Copy, Debug)]
pub(crate) struct Streams {
    /// `#~`.
    pub tables: Span,
    /// `#Strings`.
    pub strings: Span,
    /// `#US`.
    pub user_strings: Span,
    /// `#GUID`.
    pub guids: Span,
    /// `#Blob`.
    pub blobs: Span,
}

impl Streams {
    /// The streams of the metadata at a range. `Malformed` names the first of the checks 32 to 35 that fails, with its place.
    #[tactic(auto, unfolding(crate::specs::Streams::headers_in, crate::specs::Streams::stream_of))]
    pub(crate) fn read(
        alloc: Global,
        bytes: &[u8],
        span: Span,
        root: Root,
    ) -> Result<Streams, ReadRefusal>
        requires small { length bytes.now ≤ 2 ^ 31 }
        requires whole { end_of span ≤ length bytes.now }
        requires headers { root.headers_at ≡ headers_at bytes.now span.start }
        requires count { root.stream_count ≡ stream_count bytes.now span.start }
        requires within { root.headers_at ≤ end_of span }
        ensures fault { IfErr result (λ e. RefusedBy (first_fault (stream_checks span) bytes.now) e) }
        ensures ok { OnOk result (first_fault (stream_checks span) bytes.now ≡ None) }
        ensures streams { IfOk result (λ s. AreStreams bytes.now span s) }
        ensures inside { IfOk result (λ s. AreInside span s) }
        ensures there { OnOk result (is_some (header_named tables_name (headers_in bytes.now span)) ≡ true) }
    {
        let headers = read_headers(alloc, bytes, span.start + span.len, root)?;
        check_ranges(&headers, span)?;
        check_names(alloc, &headers)?;
        ensure(
            header_named(&headers, TABLES).is_some(),
            Check::TablesStream as u16,
            span.start,
        )?;
        Ok(Streams {
            tables: span_named(&headers, TABLES, span),
            strings: span_named(&headers, STRINGS, span),
            user_strings: span_named(&headers, USER_STRINGS, span),
            guids: span_named(&headers, GUIDS, span),
            blobs: span_named(&headers, BLOBS, span),
        })
    }
}
