//! What holds of texts and traces.
ghost use Rattle.std.specs.Prelude.{◌≡◌, ◌≤◌, ◌⊎◌, ℕ, List, [], length};
ghost use Rattle.pass_trace.specs.declared.trace.TraceLine.{TraceLine};
ghost use Rattle.pass_trace.specs.declared.trace.TraceReason.{TraceReason};
ghost use Rattle.pass_trace.specs.Lawful.{ObjectsLaw, StaysLaw, TooLongLaw, WiderLaw};
ghost use Rattle.pass_trace.specs.declared.limits.Scale.{Scale};
ghost use Rattle.pass_trace.specs.Limits.{most_lines};
ghost use Rattle.pass_trace.specs.Rules.{LinesFollow};
ghost use Rattle.pass_trace.specs.Traces.{trace_of, IsTraceText, IsFirstFault};
ghost use Rattle.pass_trace.specs.Texts.{text_of, renumbered_from};

/// A text is one of a trace, or has one first fault with one reason.
pub fn text_or_one_fault()
    ensures either { (scale : Scale) (bytes : List ℕ) → IsTraceText scale bytes
        ⊎ ((line : ℕ) × (reason : TraceReason) × IsFirstFault scale bytes line reason) }
    ensures apart { (scale : Scale) (bytes : List ℕ) (line : ℕ) (reason : TraceReason) →
        IsFirstFault scale bytes line reason → ¬ IsTraceText scale bytes }
    ensures alone { (scale : Scale) (bytes : List ℕ) (line other : ℕ) (reason another : TraceReason) →
        IsFirstFault scale bytes line reason → IsFirstFault scale bytes other another →
        (line ≡ other) × (reason ≡ another) }
{}

/// The lines of a trace may follow each other. No more than a text may have, that may follow each other, are the
/// trace of what is written of them, numbered from 1.
pub fn lines_that_follow()
    ensures lines { (scale : Scale) (bytes : List ℕ) → IsTraceText scale bytes →
        LinesFollow scale [] (trace_of bytes) × (length (trace_of bytes) ≤ most_lines scale) }
    ensures text { (scale : Scale) (lines : List TraceLine) → LinesFollow scale [] lines → length lines ≤ most_lines scale →
        IsTraceText scale (text_of lines) }
    ensures trace { (scale : Scale) (lines : List TraceLine) → LinesFollow scale [] lines → length lines ≤ most_lines scale →
        trace_of (text_of lines) ≡ renumbered_from 1 lines }
{}

/// What is written of the trace of a text is a text with the same processes and commands, whose
/// lines are numbered from 1.
pub fn written_is_read_again()
    ensures text { (scale : Scale) (bytes : List ℕ) → IsTraceText scale bytes → IsTraceText scale (text_of (trace_of bytes)) }
    ensures trace { (scale : Scale) (bytes : List ℕ) → IsTraceText scale bytes →
        trace_of (text_of (trace_of bytes)) ≡ renumbered_from 1 (trace_of bytes) }
{}

/// A trace makes no more objects than one session may.
pub fn traces()
    ensures { ObjectsLaw }
{}

/// A text that is too long is none of a trace, so that a reader may stop within it: its first fault is known.
pub fn long_texts()
    ensures apart { TooLongLaw }
    ensures stays { StaysLaw }
{}

/// A text of a trace of any scale is one of the long scale.
pub fn scales()
    ensures { WiderLaw }
{}
