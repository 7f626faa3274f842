//! The items of a module.

ghost use Rattle.naga_verdict.specs.Items.{index_of, item_of, kind_of, letter_of, owner_of};
ghost use Rattle.std.specs.Prelude.{◌≡◌};

/// A function or an entry point, by its index, to which arguments, local variables and expressions belong.
#[derive(Clone, Copy, Debug, PartialEq, Eq, Hash)]
pub enum Owner {
    Function(usize),
    EntryPoint(usize),
}

impl Owner {
    /// The function or entry point as an item.
    pub fn item(self) -> Item
        ensures { result ≡ item_of self }
    {
        match self {
            Owner::Function(index) => Item::Function(index),
            Owner::EntryPoint(index) => Item::EntryPoint(index),
        }
    }
}

/// An item of a module, by its index.
#[derive(Clone, Copy, Debug, PartialEq, Eq, Hash)]
pub enum Item {
    Type_(usize),
    GlobalExpression(usize),
    Constant(usize),
    Override(usize),
    GlobalVariable(usize),
    Function(usize),
    EntryPoint(usize),
    DiagnosticFilter(usize),
    /// An argument of a function or an entry point.
    Argument(Owner, usize),
    LocalVariable(Owner, usize),
    /// An expression of a function or an entry point.
    Expression(Owner, usize),
}

impl Item {
    /// What items like this are called.
    pub fn kind(self) -> &'static str
        ensures { result.now ≡ kind_of self }
    {
        match self {
            Item::Type_(_) => "type",
            Item::GlobalExpression(_) => "global expression",
            Item::Constant(_) => "constant",
            Item::Override(_) => "override",
            Item::GlobalVariable(_) => "global variable",
            Item::Function(_) => "function",
            Item::EntryPoint(_) => "entry point",
            Item::DiagnosticFilter(_) => "diagnostic filter",
            Item::Argument(..) => "argument",
            Item::LocalVariable(..) => "local variable",
            Item::Expression(..) => "expression",
        }
    }

    /// The letter that stands before the index of an item like this.
    pub fn letter(self) -> char
        ensures { result ≡ letter_of self }
    {
        match self {
            Item::Type_(_) => 'T',
            Item::GlobalExpression(_) => 'G',
            Item::Constant(_) => 'C',
            Item::Override(_) => 'O',
            Item::GlobalVariable(_) => 'V',
            Item::Function(_) => 'F',
            Item::EntryPoint(_) => 'N',
            Item::DiagnosticFilter(_) => 'D',
            Item::Argument(..) => 'A',
            Item::LocalVariable(..) => 'L',
            Item::Expression(..) => 'E',
        }
    }

    /// The function or entry point that the item belongs to.
    pub fn owner(self) -> Option<Owner>
        ensures { result ≡ owner_of self }
    {
        match self {
            Item::Argument(of, _) | Item::LocalVariable(of, _) | Item::Expression(of, _) => {
                Some(of)
            }
            _ => None,
        }
    }

    /// The index of the item among those of its kind.
    pub fn index(self) -> usize
        ensures { result ≡ index_of self }
    {
        match self {
            Item::Type_(index)
            | Item::GlobalExpression(index)
            | Item::Constant(index)
            | Item::Override(index)
            | Item::GlobalVariable(index)
            | Item::Function(index)
            | Item::EntryPoint(index)
            | Item::DiagnosticFilter(index)
            | Item::Argument(_, index)
            | Item::LocalVariable(_, index)
            | Item::Expression(_, index) => index,
        }
    }
}
