// The form of a trace, tested over the whole of it before a step is made.
#![tactic(auto)]

ghost use Rattle.std.specs.Prelude.{◌≡◌};
ghost use Rattle.spec_trace.specs.Form.{is_call, trace_lines, there};

use spec_trace::Line;

// The most lines of a trace.
const LINES: u32 = 65535;

// Whether a line is one of a call.
#[tactic(auto, unfolding(spec_trace::specs::Form::is_call))]
pub fn is_call(l: Line) -> bool
    ensures { result ≡ is_call l }
{
    matches!(l, Line::Call(_, _, _, _))
}

// Whether a trace has the form. No call stands behind a line of the end.
pub fn has_form(trace: &[u8]) -> bool
    ensures { result ≡ there (trace_lines trace.now) }
{
    let mut rest = trace;
    let mut ended = false;
    for _n in 0..LINES {
        if rest.is_empty() {
            return true;
        }
        let Some((line, behind)) = trace_line::whole(rest) else {
            return false;
        };
        let call = is_call(line);
        if ended && call {
            return false;
        }
        ended = !call;
        rest = behind;
    }
    rest.is_empty()
}
