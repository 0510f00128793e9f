// Descriptions of values, types and datatypes, constructors and sharing.
ghost use Rattle.std.specs.Prelude.{◌≡◌, ◌++◌, ◌∷◌, [], None, IfOk, OnOk};
ghost use Rattle.ty_parser.specs.machine.Machine.{taken};
ghost use Rattle.sig_parser.specs.Grammar as grammar;
ghost use Rattle.sig_parser.specs.machine.Machine as machine;
ghost use Rattle.sig_parser.specs.machine.Views.{state_of, levels, levels_over, before_goal, open_of, headed_of, before_headed, cons_of};
ghost use Rattle.sig_parser.specs.declared.point.Reading.{Reading};

use crate::point::{Cons, Headed, Open, Owner, Point, Reading, Shared};
use crate::tree::{ConDesc, DataDesc, Spec, TypeDesc};
use sig_base::{List, NoMemory, Word};
use ty_parser::Sort;

fn is_described_vid(sort: Sort) -> bool
    ensures { result ≡ grammar.is_described_vid sort }
{
    match sort {
        Sort::Reserved(Word::KwEquals) => true,
        _ => sort.is_vid(),
    }
}

fn is_name(headed: Headed, sort: Sort) -> bool
    ensures { (r : Reading) → result ≡ machine.is_name (headed_of headed r) sort }
{
    match headed {
        Headed::Where(_, _) => sort.is_long_tycon(),
        _ => sort.is_tycon(),
    }
}

fn is_shared(shared: Shared, sort: Sort) -> bool
    ensures { result ≡ machine.is_shared shared sort }
{
    match shared {
        Shared::Types => sort.is_long_tycon(),
        Shared::Structures => sort.is_long_strid(),
    }
}

fn shared_spec(shared: Shared, names: List<u32>) -> Spec
    ensures { result ≡ machine.shared_spec shared names }
{
    match shared {
        Shared::Types => Spec::SharingType(names),
        Shared::Structures => Spec::Sharing(names),
    }
}

impl Reading {
    /// Hands over a token before the identifier of a value.
    #[tactic(auto, unfolding(crate::specs::machine::Machine::want_val))]
    pub fn want_val(&mut self, place: u32, sort: Sort) -> bool
        ensures value { taken result (state_of self.new)
            ≡ machine.want_val self.old.decs (levels self.old) self.old.values place sort }
    {
        if is_described_vid(sort) {
            self.point = Point::HaveVal(place);
            true
        } else {
            false
        }
    }

    /// Hands over a token behind it.
    #[tactic(auto, unfolding(crate::specs::machine::Machine::have_val))]
    pub fn have_val(&mut self, id: u32, sort: Sort) -> bool
        ensures value { taken result (state_of self.new)
            ≡ machine.have_val self.old.decs (levels self.old) self.old.values id sort }
    {
        match sort {
            Sort::Reserved(Word::KwColon) => {
                self.point = Point::WantType(Owner::Val(id));
                true
            }
            _ => false,
        }
    }

    #[tactic(auto, unfolding(crate::specs::machine::Machine::begin_params))]
    fn begin_params(&mut self, headed: Headed, place: u32, sort: Sort) -> Result<bool, NoMemory>
        ensures { IfOk result (λ can. taken can (state_of self.new)
            ≡ machine.begin_params self.old.decs (levels_over self.old (before_headed headed self.old.bindings))
            (headed_of headed self.old) place sort) }
    {
        match sort {
            Sort::Variable => {
                self.params.clear();
                self.params.push(place)?;
                self.point = Point::WantTycon(headed);
                Ok(true)
            }
            Sort::Reserved(Word::KwLParen) => {
                self.params.clear();
                self.point = Point::WantParam(headed);
                Ok(true)
            }
            _ => Ok(false),
        }
    }

    /// Hands over a token before parameters.
    #[tactic(auto, unfolding(crate::specs::machine::Machine::want_params))]
    pub fn want_params(&mut self, headed: Headed, place: u32, sort: Sort) -> Result<bool, NoMemory>
        ensures value { IfOk result (λ can. taken can (state_of self.new)
            ≡ machine.want_params self.old.decs (levels_over self.old (before_headed headed self.old.bindings))
            (headed_of headed self.old) place sort) }
    {
        if is_name(headed, sort) {
            self.params.clear();
            self.point = Point::HaveTycon(headed, place);
            Ok(true)
        } else {
            self.begin_params(headed, place, sort)
        }
    }

    /// Hands over a token before a parameter in parentheses.
    #[tactic(auto, unfolding(crate::specs::machine::Machine::want_param))]
    pub fn want_param(&mut self, headed: Headed, place: u32, sort: Sort) -> Result<bool, NoMemory>
        ensures value { IfOk result (λ can. taken can (state_of self.new)
            ≡ machine.want_param self.old.decs (levels_over self.old (before_headed headed self.old.bindings))
            (headed_of headed self.old) self.old.params place sort) }
    {
        match sort {
            Sort::Variable => {
                self.params.push(place)?;
                self.point = Point::HaveParam(headed);
                Ok(true)
            }
            _ => Ok(false),
        }
    }

    /// Hands over a token behind a parameter in parentheses.
    #[tactic(auto, unfolding(crate::specs::machine::Machine::have_param))]
    pub fn have_param(&mut self, headed: Headed, sort: Sort) -> bool
        ensures value { taken result (state_of self.new)
            ≡ machine.have_param self.old.decs (levels_over self.old (before_headed headed self.old.bindings))
            (headed_of headed self.old) self.old.params sort }
    {
        match sort {
            Sort::Reserved(Word::KwComma) => {
                self.point = Point::WantParam(headed);
                true
            }
            Sort::Reserved(Word::KwRParen) => {
                self.point = Point::WantTycon(headed);
                true
            }
            _ => false,
        }
    }

    /// Hands over a token before a type constructor.
    #[tactic(auto, unfolding(crate::specs::machine::Machine::want_tycon))]
    pub fn want_tycon(&mut self, headed: Headed, place: u32, sort: Sort) -> bool
        ensures value { taken result (state_of self.new)
            ≡ machine.want_tycon self.old.decs (levels_over self.old (before_headed headed self.old.bindings))
            (headed_of headed self.old) self.old.params place sort }
    {
        if is_name(headed, sort) {
            self.point = Point::HaveTycon(headed, place);
            true
        } else {
            false
        }
    }

    #[tactic(auto, unfolding(crate::specs::machine::Machine::where_tycon))]
    fn where_tycon(&mut self, begun: Open, at: u32, tycon: u32, sort: Sort) -> bool
        ensures { taken result (state_of self.new)
            ≡ machine.where_tycon self.old.decs (levels_over self.old (before_goal begun.goal self.old.bindings))
            (open_of begun self.old) at self.old.params tycon sort }
    {
        match sort {
            Sort::Reserved(Word::KwEquals) => {
                self.point = Point::WantType(Owner::Where(begun, at, tycon));
                true
            }
            _ => false,
        }
    }

    #[tactic(auto, unfolding(crate::specs::machine::Machine::datatype_tycon))]
    fn datatype_tycon(&mut self, id: u32, sort: Sort) -> bool
        ensures { taken result (state_of self.new)
            ≡ machine.datatype_tycon self.old.decs (levels self.old) self.old.datatypes self.old.params id sort }
    {
        match sort {
            Sort::Reserved(Word::KwEquals) => {
                self.point = Point::AfterEquals(id);
                true
            }
            _ => false,
        }
    }

    // A replication describes one type constructor, without parameters.
    #[tactic(auto, unfolding(crate::specs::machine::Machine::replica))]
    fn replica(&mut self, id: u32, sort: Sort) -> bool
        ensures { taken result (state_of self.new)
            ≡ machine.replica self.old.decs (levels self.old) self.old.datatypes self.old.params id sort }
    {
        let alone = self.datatypes.is_empty() && self.params.is_empty();
        if alone && sort == Sort::Reserved(Word::KwDatatype) {
            self.point = Point::WantReplica(id);
            true
        } else {
            false
        }
    }

    /// Hands over a token behind the `=` of a datatype.
    #[tactic(auto, unfolding(crate::specs::machine::Machine::after_equals))]
    pub fn after_equals(&mut self, id: u32, place: u32, sort: Sort) -> bool
        ensures value { taken result (state_of self.new)
            ≡ machine.after_equals self.old.decs (levels self.old) self.old.datatypes self.old.params id
            place sort }
    {
        if !sort.is_vid() {
            return self.replica(id, sort);
        }
        self.cons.clear();
        self.point = Point::HaveCon(Cons::Datatype(id), place);
        true
    }

    /// Hands over a token before a constructor or an exception.
    #[tactic(auto, unfolding(crate::specs::machine::Machine::want_con))]
    pub fn want_con(&mut self, cons: Cons, place: u32, sort: Sort) -> bool
        ensures value { taken result (state_of self.new)
            ≡ machine.want_con self.old.decs (levels self.old) (cons_of cons self.old) self.old.cons place sort }
    {
        if sort.is_vid() {
            self.point = Point::HaveCon(cons, place);
            true
        } else {
            false
        }
    }

    #[tactic(auto, unfolding(crate::specs::machine::Machine::sharing_type))]
    fn sharing_type(&mut self, sort: Sort) -> bool
        ensures { taken result (state_of self.new) ≡ machine.sharing_type self.old.decs (levels self.old) sort }
    {
        match sort {
            Sort::Reserved(Word::KwType) => {
                self.point = Point::AfterSharingType;
                true
            }
            _ => false,
        }
    }

    /// Hands over a token behind `sharing`.
    #[tactic(auto, unfolding(crate::specs::machine::Machine::after_sharing))]
    pub fn after_sharing(&mut self, place: u32, sort: Sort) -> bool
        ensures value { taken result (state_of self.new)
            ≡ machine.after_sharing self.old.decs (levels self.old) place sort }
    {
        if sort.is_long_strid() {
            self.point = Point::OneShared(Shared::Structures, place);
            true
        } else {
            self.sharing_type(sort)
        }
    }

    /// Hands over a token behind `sharing type`.
    #[tactic(auto, unfolding(crate::specs::machine::Machine::after_sharing_type))]
    pub fn after_sharing_type(&mut self, place: u32, sort: Sort) -> bool
        ensures value { taken result (state_of self.new)
            ≡ machine.after_sharing_type self.old.decs (levels self.old) place sort }
    {
        if sort.is_long_tycon() {
            self.point = Point::OneShared(Shared::Types, place);
            true
        } else {
            false
        }
    }

    /// Hands over a token behind the first that is shared.
    #[tactic(auto, unfolding(crate::specs::machine::Machine::one_shared))]
    pub fn one_shared(&mut self, shared: Shared, first: u32, sort: Sort) -> Result<bool, NoMemory>
        ensures value { IfOk result (λ can. taken can (state_of self.new)
            ≡ machine.one_shared self.old.decs (levels self.old) shared first sort) }
    {
        match sort {
            Sort::Reserved(Word::KwEquals) => {
                self.names.clear();
                self.names.push(first)?;
                self.point = Point::WantShared(shared);
                Ok(true)
            }
            _ => Ok(false),
        }
    }

    /// Hands over a token before one more that is shared.
    #[tactic(auto, unfolding(crate::specs::machine::Machine::want_shared))]
    pub fn want_shared(&mut self, shared: Shared, place: u32, sort: Sort) -> Result<bool, NoMemory>
        ensures value { IfOk result (λ can. taken can (state_of self.new)
            ≡ machine.want_shared self.old.decs (levels self.old) shared self.old.names place sort) }
    {
        if is_shared(shared, sort) {
            self.names.push(place)?;
            self.point = Point::HaveShared(shared);
            Ok(true)
        } else {
            Ok(false)
        }
    }

    /// Hands over a token behind two or more that are shared.
    #[tactic(auto, unfolding(crate::specs::machine::Machine::have_shared))]
    pub fn have_shared(&mut self, shared: Shared, sort: Sort) -> Result<bool, NoMemory>
        ensures value { IfOk result (λ can. taken can (state_of self.new)
            ≡ machine.have_shared self.old.decs (levels self.old) shared self.old.names sort) }
    {
        match sort {
            Sort::Reserved(Word::KwEquals) => {
                self.point = Point::WantShared(shared);
                Ok(true)
            }
            _ => {
                let names = self.names.take_all()?;
                self.behind_spec(shared_spec(shared, names), sort)
            }
        }
    }

    /// Hands over a token behind values.
    #[tactic(auto, unfolding(crate::specs::machine::Machine::vals))]
    pub fn vals(&mut self, sort: Sort) -> Result<bool, NoMemory>
        ensures value { IfOk result (λ can. taken can (state_of self.new)
            ≡ machine.vals self.old.decs (levels self.old) self.old.values sort) }
    {
        match sort {
            Sort::Reserved(Word::KwAnd) => {
                self.point = Point::WantVal;
                Ok(true)
            }
            _ => {
                let values = self.values.take_all()?;
                self.behind_spec(Spec::Val(values), sort)
            }
        }
    }

    /// Hands over a token behind type descriptions.
    #[tactic(auto, unfolding(crate::specs::machine::Machine::types_))]
    pub fn types(&mut self, sort: Sort) -> Result<bool, NoMemory>
        ensures value { IfOk result (λ can. taken can (state_of self.new)
            ≡ machine.types_ self.old.decs (levels self.old) self.old.types sort) }
    {
        match sort {
            Sort::Reserved(Word::KwAnd) => {
                self.point = Point::WantParams(Headed::Type);
                Ok(true)
            }
            _ => {
                let types = self.types.take_all()?;
                self.behind_spec(Spec::Abbrev(types), sort)
            }
        }
    }

    /// Hands over a token behind those of an `eqtype`.
    #[tactic(auto, unfolding(crate::specs::machine::Machine::eqtypes))]
    pub fn eqtypes(&mut self, sort: Sort) -> Result<bool, NoMemory>
        ensures value { IfOk result (λ can. taken can (state_of self.new)
            ≡ machine.eqtypes self.old.decs (levels self.old) self.old.types sort) }
    {
        match sort {
            Sort::Reserved(Word::KwAnd) => {
                self.point = Point::WantParams(Headed::Eqtype);
                Ok(true)
            }
            _ => {
                let types = self.types.take_all()?;
                self.behind_spec(Spec::Eqtype(types), sort)
            }
        }
    }

    /// Hands over a token behind datatypes.
    #[tactic(auto, unfolding(crate::specs::machine::Machine::datatypes))]
    pub fn datatypes(&mut self, sort: Sort) -> Result<bool, NoMemory>
        ensures value { IfOk result (λ can. taken can (state_of self.new)
            ≡ machine.datatypes self.old.decs (levels self.old) self.old.datatypes sort) }
    {
        match sort {
            Sort::Reserved(Word::KwAnd) => {
                self.point = Point::WantParams(Headed::Datatype);
                Ok(true)
            }
            _ => {
                let datatypes = self.datatypes.take_all()?;
                self.behind_spec(Spec::Datatype(datatypes), sort)
            }
        }
    }

    #[tactic(auto, unfolding(crate::specs::machine::Machine::type_tycon))]
    fn type_tycon(&mut self, id: u32, sort: Sort) -> Result<bool, NoMemory>
        ensures { IfOk result (λ can. taken can (state_of self.new)
            ≡ machine.type_tycon self.old.decs (levels self.old) self.old.types self.old.params id sort) }
    {
        match sort {
            Sort::Reserved(Word::KwEquals) => {
                self.point = Point::WantType(Owner::Type(id));
                Ok(true)
            }
            _ => {
                let params = self.params.take_all()?;
                let rhs = None;
                self.types.push(TypeDesc { params, id, rhs })?;
                self.types(sort)
            }
        }
    }

    fn eqtype_tycon(&mut self, id: u32, sort: Sort) -> Result<bool, NoMemory>
        ensures { IfOk result (λ can. taken can (state_of self.new)
            ≡ machine.eqtypes self.old.decs (levels self.old)
            (self.old.types ++ machine.description self.old.params id None ∷ []) sort) }
    {
        let params = self.params.take_all()?;
        let rhs = None;
        self.types.push(TypeDesc { params, id, rhs })?;
        self.eqtypes(sort)
    }

    /// Hands over a token behind a type constructor.
    pub fn have_tycon(&mut self, headed: Headed, id: u32, sort: Sort) -> Result<bool, NoMemory>
        ensures value { IfOk result (λ can. taken can (state_of self.new)
            ≡ machine.have_tycon self.old.decs (levels_over self.old (before_headed headed self.old.bindings))
            (headed_of headed self.old) self.old.params id sort) }
    {
        match headed {
            Headed::Where(begun, at) => Ok(self.where_tycon(begun, at, id, sort)),
            Headed::Type => self.type_tycon(id, sort),
            Headed::Eqtype => self.eqtype_tycon(id, sort),
            Headed::Datatype => Ok(self.datatype_tycon(id, sort)),
        }
    }

    /// Hands over a token before the type constructor that is replicated.
    #[tactic(auto, unfolding(crate::specs::machine::Machine::want_replica))]
    pub fn want_replica(&mut self, id: u32, place: u32, sort: Sort) -> Result<bool, NoMemory>
        ensures value { IfOk result (λ can. taken can (state_of self.new)
            ≡ machine.want_replica self.old.decs (levels self.old) id place sort) }
    {
        if sort.is_long_tycon() {
            self.with_spec(Spec::Replica(id, place))?;
            self.point = Point::Items;
            Ok(true)
        } else {
            Ok(false)
        }
    }

    #[tactic(auto, unfolding(crate::specs::machine::Machine::constructors))]
    fn constructors(&mut self, id: u32, sort: Sort) -> Result<bool, NoMemory>
        ensures { IfOk result (λ can. taken can (state_of self.new)
            ≡ machine.constructors self.old.decs (levels self.old) self.old.datatypes self.old.params id
            self.old.cons sort) }
    {
        match sort {
            Sort::Reserved(Word::KwBar) => {
                self.point = Point::WantCon(Cons::Datatype(id));
                Ok(true)
            }
            _ => {
                let params = self.params.take_all()?;
                let cons = self.cons.take_all()?;
                self.datatypes.push(DataDesc { params, id, cons })?;
                self.datatypes(sort)
            }
        }
    }

    #[tactic(auto, unfolding(crate::specs::machine::Machine::exceptions))]
    fn exceptions(&mut self, sort: Sort) -> Result<bool, NoMemory>
        ensures { IfOk result (λ can. taken can (state_of self.new)
            ≡ machine.exceptions self.old.decs (levels self.old) self.old.cons sort) }
    {
        match sort {
            Sort::Reserved(Word::KwAnd) => {
                self.point = Point::WantCon(Cons::Exception);
                Ok(true)
            }
            _ => {
                let cons = self.cons.take_all()?;
                self.behind_spec(Spec::Exception(cons), sort)
            }
        }
    }

    /// Hands over a token behind constructors or exceptions.
    pub fn have_cons(&mut self, cons: Cons, sort: Sort) -> Result<bool, NoMemory>
        ensures value { IfOk result (λ can. taken can (state_of self.new)
            ≡ machine.have_cons self.old.decs (levels self.old) (cons_of cons self.old) self.old.cons sort) }
    {
        match cons {
            Cons::Datatype(id) => self.constructors(id, sort),
            Cons::Exception => self.exceptions(sort),
        }
    }

    /// Hands over a token behind the identifier of a constructor or an exception.
    #[tactic(auto, unfolding(crate::specs::machine::Machine::have_con))]
    pub fn have_con(&mut self, cons: Cons, id: u32, sort: Sort) -> Result<bool, NoMemory>
        ensures value { IfOk result (λ can. taken can (state_of self.new)
            ≡ machine.have_con self.old.decs (levels self.old) (cons_of cons self.old) self.old.cons id sort) }
    {
        match sort {
            Sort::Reserved(Word::KwOf) => {
                self.point = Point::WantType(Owner::Con(cons, id));
                Ok(true)
            }
            _ => {
                self.cons.push(ConDesc { id, arg: None })?;
                self.have_cons(cons, sort)
            }
        }
    }
}
