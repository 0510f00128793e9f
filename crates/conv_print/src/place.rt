// Where a term stands.
ghost use Rattle.std.specs.Prelude.{◌≡◌};
ghost use Rattle.conv_print.specs.Printing.{encloses_abstraction, encloses_application};

/// Where a term stands, which decides whether it is put in parentheses.
#[derive(Clone, Copy, Debug, PartialEq, Eq)]
pub enum Place {
    /// Where any term may stand.
    Free,
    /// As the function of an application.
    Function,
    /// As the argument of an application or of a projection.
    Argument,
}

pub fn encloses_abstraction(place: Place) -> bool
    ensures value { result ≡ encloses_abstraction place }
{
    match place {
        Place::Free => false,
        _ => true,
    }
}

pub fn encloses_application(place: Place) -> bool
    ensures value { result ≡ encloses_application place }
{
    match place {
        Place::Argument => true,
        _ => false,
    }
}
