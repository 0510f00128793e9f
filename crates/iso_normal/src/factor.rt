// Linear factors.
use sig_base::List;
use type_core::Ty;

/// A part of a type as the linear theory sees it.
#[cycle(factor)]
#[derive(Drop)]
pub enum Factor {
    /// A variable, an application or a record.
    Atom(Ty),
    /// An arrow from its arguments, of which there is at least one, to its results, which aren't one single arrow.
    Arr(List<Factor>, List<Factor>),
}
