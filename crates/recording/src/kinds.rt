// Which kinds only some parts have.
ghost use Rattle.std.specs.Prelude.{◌≡◌};
ghost use Rattle.recording.specs.Record.{keyed, switched};

use terms::Part;

pub fn has_keys(part: Part) -> bool
    ensures { result ≡ keyed part }
{
    match part {
        Part::Pt6302 => false,
        Part::Pt6312 => true,
        Part::Pt6315 => true,
    }
}

pub fn has_switches(part: Part) -> bool
    ensures { result ≡ switched part }
{
    match part {
        Part::Pt6302 => false,
        Part::Pt6312 => true,
        Part::Pt6315 => false,
    }
}
