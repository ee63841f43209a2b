// The codes of document 01's lists, in the order in which it gives them. specs/Codes.antt says the same in the definitions.

#[derive(Clone, Copy)]
pub struct Rights;

impl Rights {
    pub const N: u8 = 0;

    pub const B: u8 = 1;

    pub const TIP: u8 = 2;
}

#[derive(Clone, Copy)]
pub struct Entry;

impl Entry {
    pub const NONE: u8 = 0;

    pub const BRANCH: u8 = 1;

    pub const TRUNK: u8 = 2;
}

#[derive(Clone, Copy)]
pub struct Name;

impl Name {
    pub const N: u8 = 0;

    pub const B: u8 = 1;

    pub const T: u8 = 2;

    pub const TB: u8 = 3;

    pub const TT: u8 = 4;
}

#[derive(Clone, Copy)]
pub struct Phase;

impl Phase {
    pub const IDLE: u8 = 0;

    pub const CLEAR: u8 = 1;

    pub const ASK: u8 = 2;

    pub const WAIT: u8 = 3;

    pub const CONFIRM: u8 = 4;

    pub const GIVE: u8 = 5;

    pub const AWAIT: u8 = 6;

    pub const LET_GO: u8 = 7;

    pub const LEAVING: u8 = 8;
}

#[derive(Clone, Copy)]
pub struct Purpose;

impl Purpose {
    pub const NONE: u8 = 0;

    pub const LOAD: u8 = 1;

    pub const STORE: u8 = 2;

    pub const EVICT: u8 = 3;
}

// The cap of an open probe; a message in slot B has the code of its cap.
#[derive(Clone, Copy)]
pub struct Cap;

impl Cap {
    pub const NONE: u8 = 0;

    pub const B: u8 = 1;

    pub const N: u8 = 2;
}

// No child: an absent requester, an idle release.
#[derive(Clone, Copy)]
pub struct Child;

impl Child {
    pub const NONE: u8 = 0;
}

// The messages, by slot. EMPTY is an empty slot.
#[derive(Clone, Copy)]
pub struct Message;

impl Message {
    pub const EMPTY: u8 = 0;

    pub const ACQUIRE_B: u8 = 1;

    pub const ACQUIRE_T: u8 = 2;

    pub const ACQUIRE_U: u8 = 3;

    pub const PROBE_B: u8 = 1;

    pub const PROBE_N: u8 = 2;

    pub const PROBE_ACK: u8 = 1;

    pub const PROBE_ACK_DATA: u8 = 2;

    pub const RELEASE: u8 = 3;

    pub const RELEASE_DATA: u8 = 4;

    pub const GRANT_T: u8 = 1;

    pub const GRANT_DATA_T: u8 = 2;

    pub const GRANT_DATA_B: u8 = 3;

    pub const RELEASE_ACK: u8 = 4;

    pub const GRANT_ACK: u8 = 1;
}
