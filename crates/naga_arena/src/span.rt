//! Spans: parts of the source text.

ghost use Rattle.std.specs.Prelude.{◌≡◌, None, Some, if◌then◌else◌};
ghost use Rattle.naga_arena.specs.Span.{inner_of, is_defined, span_of};

use crate::memory::OutOfMemory;

/// A part of the source, from byte `start` to before byte `end`. The default span means that no part
/// is known.
#[derive(Clone, Copy, Debug, PartialEq, Eq, Default)]
pub struct Span {
    /// The first byte.
    pub start: u32,
    /// The byte after the last.
    pub end: u32,
}

impl Span {
    /// The part from byte `start` to before byte `end`.
    pub fn new(start: u32, end: u32) -> Span
        ensures { result ≡ record { start = start; end = end } }
    {
        Span { start, end }
    }

    /// Whether a part of the source is known: the span is not the default one.
    pub fn is_defined(self) -> bool
        ensures { result ≡ is_defined self }
    {
        self != Span::default()
    }
}

/// An error, and the part of the source that it is about if that is known.
#[derive(Debug, PartialEq, Drop)]
pub struct WithSpan<E> {
    inner: E,
    span: Option<Span>,
}

impl<E: Drop> WithSpan<E> {
    /// An error about no known part of the source.
    pub fn new(inner: E) -> WithSpan<E>
        ensures inner { inner_of result ≡ inner }
        ensures span { span_of result ≡ None }
    {
        WithSpan { inner, span: None }
    }

    /// The same error about a part of the source. The default span changes nothing.
    pub fn with_span(self, span: Span) -> WithSpan<E>
        ensures inner { inner_of result ≡ inner_of self }
        ensures span { span_of result ≡ (if is_defined span then Some span else span_of self) }
    {
        if span.is_defined() {
            WithSpan {
                inner: self.inner,
                span: Some(span),
            }
        } else {
            self
        }
    }

    /// The error.
    pub fn as_inner(&self) -> &E
        ensures { result.now ≡ inner_of self.now }
    {
        &self.inner
    }

    /// The error, without its span.
    pub fn into_inner(self) -> E
        ensures { result ≡ inner_of self }
    {
        self.inner
    }

    /// The part of the source that the error is about, if that is known.
    pub fn span(&self) -> Option<Span>
        ensures { result ≡ span_of self.now }
    {
        self.span
    }
}

impl<E: From<OutOfMemory> + Drop> From<OutOfMemory> for WithSpan<E> {
    ghost use Rattle.std.specs.Prelude.{◌≡◌, None};
    ghost use Rattle.naga_arena.specs.Span.{inner_of, span_of};

    ghost from_gives = { λ source e. E.from_gives source (inner_of e) × (span_of e ≡ None) };

    fn from(source: OutOfMemory) -> WithSpan<E> {
        WithSpan::new(E::from(source))
    }
}
