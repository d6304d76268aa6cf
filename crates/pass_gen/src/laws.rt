//! What holds of every trace that is drawn.
ghost use Rattle.std.specs.Prelude.{◌≡◌, ◌≤◌, ℕ};
ghost use Rattle.pass_trace.specs.declared.limits.Scale.{Scale};
ghost use Rattle.pass_trace.specs.declared.limits.Scale.TheVariants.{Long};
ghost use Rattle.pass_trace.specs.Limits.{most_lines};
ghost use Rattle.pass_trace.specs.Texts.{text_of};
ghost use Rattle.pass_trace.specs.Traces.{trace_of, IsTraceText};
ghost use Rattle.pass_gen.specs.Generated.{generated};

/// What a number draws is the trace of the text that is written of it.
pub fn generated_is_read()
    ensures text { (scale : Scale) (number lines : ℕ) → 15 ≤ lines → lines ≤ most_lines scale → IsTraceText scale (text_of (generated number lines)) }
    ensures trace { (number lines : ℕ) → 15 ≤ lines → lines ≤ most_lines Long →
        generated number lines ≡ trace_of (text_of (generated number lines)) }
{
    pass_trace::laws::lines_that_follow();
}
