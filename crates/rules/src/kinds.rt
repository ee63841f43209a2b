// What the event table says of a kind beside its needs and its effect. specs/Table.antt has the rows.

// Number 4: where the kind may happen.
#[derive(Clone, Copy)]
pub enum Place {
    Anywhere,
    AtLeaf,
    BelowRoot,
    AboveLeaf,
}

// Number 3: what its "other" may be.
#[derive(Clone, Copy)]
pub enum Other {
    NoOther,
    AChild,
    AChoice,
}

// Number 3: what its value may be.
#[derive(Clone, Copy)]
pub enum Value {
    NoValue,
    AnyValue,
}

// The link that it acts on: the node's own, or that of the child named as other, of the requester, of the child noted for a ReleaseAck.
#[derive(Clone, Copy)]
pub enum End {
    Own,
    Named,
    Requester,
    Noted,
}

// What it makes of the node's row in to-probe: as it stands, or written anew.
#[derive(Clone, Copy)]
pub enum Probes {
    Stay,
    Held,
    Asked,
    Capped,
}

// Whether it settles: not, with the purpose that stands, or with a new one.
#[derive(Clone, Copy)]
pub enum Settles {
    Never,
    Again,
    Anew,
}

#[derive(Clone, Copy)]
pub struct Row {
    pub place: Place,
    pub other: Other,
    pub value: Value,
    pub end: End,
    pub probes: Probes,
    pub settles: Settles,
}
