// The worked marks, as a check of the definitions.
ghost use Rattle.naming.specs.Worked.{MarksWorked};

pub fn marks_as_worked() -> u8
    ensures { MarksWorked }
{
    0
}
