//! The places of the parser, which say which tokens may come next.

/// The item that was read last. Its kind says which tokens may still belong to it. The next item may begin as well.
#[derive(Clone, Copy)]
pub(crate) enum ItemBefore {
    Plain,
    StartNumber,
    ListedNames,
    Acceptance,
    Other,
}

/// The next part of the acceptance condition. The condition is `t` or a conjunction such as `Inf(0)&Inf(1)`. The number is that of the part's set.
#[derive(Clone, Copy)]
pub(crate) enum AcceptancePart {
    /// `t`, the condition of no sets.
    True,
    Inf(usize),
    Open(usize),
    Number(usize),
    Close(usize),
    /// The `&` before the set.
    And(usize),
}

/// What may come next in the body.
#[derive(Clone, Copy)]
pub(crate) enum BodyPlace {
    /// A state, or the end.
    State,
    /// The number of a state.
    Number,
    AfterNumber,
    AfterName,
    /// The acceptance sets of a state.
    StateSets,
    /// An edge, a state, or the end.
    Edge,
    /// An operand of a label.
    Operand,
    AfterOperand,
    /// The target of an edge.
    Target,
    AfterTarget,
    /// The acceptance sets of an edge.
    EdgeSets,
}

/// What may come next.
#[derive(Clone, Copy)]
pub(crate) enum Place {
    Format,
    Version,
    Item(ItemBefore),
    /// The number of states.
    States,
    /// The number of the initial state.
    Start,
    /// The number of names.
    Count,
    /// A name of the list.
    Names,
    /// The number of acceptance sets.
    Sets,
    Acceptance(AcceptancePart),
    Body(BodyPlace),
    End,
}
