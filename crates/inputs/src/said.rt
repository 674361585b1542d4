// The lines of a text that say something.
ghost use Rattle.std.specs.Prelude.{◌≡◌, Some, None, if◌then◌else◌};
ghost use Rattle.std.specs.Option.{option_copied};
ghost use Rattle.std.specs.Str.{trim};
ghost use Rattle.inputs.specs.Said.{says_nothing};

// A line without the white space around it, or none where it is blank or begins
// with #.
pub(crate) fn said(line: &str) -> Option<&str>
    ensures { option_copied result ≡ (if says_nothing (trim line.now) then None else Some (trim line.now)) }
{
    let line = line.trim();
    (!line.is_empty() && !line.starts_with('#')).then_some(line)
}
