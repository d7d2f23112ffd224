//! Which variable an event names, and what an output asks of it.

ghost use Rattle.std.specs.Prelude.{◌≡◌, true, false, MatchOption, nat_eq};
ghost use Rattle.std.specs.List.{ends_with};
ghost use Rattle.ux_outputs.specs.Variables.{before_end, input, named_by, output};

/// The name of an output variable, which stands after a bar. None where an input is named.
pub fn output_name(text: &str) -> Option<&str>
    ensures { MatchOption result (named_by text.now ≡ input text.now)
        (λ name. named_by text.now ≡ output name.now) }
{
    text.strip_prefix('|')
}

/// What stands before this end. None where the text has another end.
pub fn before<'t>(text: &'t str, end: &str) -> Option<&'t str>
    ensures { MatchOption result (ends_with nat_eq text.now end.now ≡ false)
        (λ front. (ends_with nat_eq text.now end.now ≡ true)
        × (front.now ≡ before_end end.now text.now)) }
{
    text.strip_suffix(end)
}
