// What a post keeps. These are plain values: whatever they hold, every call on them is safe.
use crate::tables::Tables;

// What a post is doing in its view.
#[derive(Clone, Copy, Debug, PartialEq, Eq)]
pub enum Phase {
    // Not started.
    Idle,
    // Its own broadcast and those of the others go on.
    Broadcasting,
    // The posts tell one another what they hold of the drawn lead's broadcast.
    Exchanging,
    // The last view is over.
    Ended,
}

// An edition with the view and the certificate that stand behind it. View and mask are 0 where none
// does, and the edition too where there is none: so the rules have it, and the letter that a post
// begins its broadcast with.
#[derive(Clone, Copy, Debug, PartialEq, Eq)]
pub struct Certified {
    pub view: u16,
    pub edition: u64,
    pub mask: u64,
}

// What a post carries from view to view.
#[derive(Clone, Copy)]
pub struct Standing {
    // The last view whose drawn lead's second step is known to be certified: no older key is signed
    // for. 0 where there is none, which is before every view, so an Option would say no more.
    pub lock: u16,
    // What the post broadcasts, with the certificate that the others ask for.
    pub key: Certified,
    // What the post decided, for good.
    pub decision: Option<Certified>,
}

// The post's own broadcast in its view.
#[derive(Clone, Copy)]
pub struct Broadcast {
    // The step it is at, 1 to 4; 5 when it is complete. The rules number it so.
    pub step: u8,
    // The posts whose ACK of that step was counted.
    pub acks: u64,
}

// What was counted towards skipping to the exchange.
#[derive(Clone, Copy, Debug, Default, PartialEq, Eq)]
pub struct Skips {
    // The posts whose DONE was counted.
    pub done: u64,
    // The posts whose SKIP-SHARE was counted.
    pub shares: u64,
    // Whether the post wrote SKIP.
    pub wrote: bool,
}

// A post (the field's word: replica).
#[derive(Clone, Copy)]
pub struct Post {
    pub phase: Phase,
    // The view it is in; 0 while idle, by the rules, so that no letter is of its view.
    pub view: u16,
    pub standing: Standing,
    pub broadcast: Broadcast,
    pub skips: Skips,
    pub tables: Tables,
    // The posts whose VIEW-CHANGE was counted.
    pub changes: u64,
}
