use crate::ran::Ran;
use crate::tally::{EachAsOften, PassTally};
use av_desk::LentParcel;
use crossbeam_channel::{Pass, RuledReceiver, RuledSender};

/// What goes to the workers: a work, a mark that one of them hands on, or the end of one of them.
#[derive(Drop)]
pub enum WorkItem {
    Parcel(LentParcel),
    Mark,
    End,
}

/// What comes back: a work that was run, a mark that was handed on, or the word of a worker that it has sent all.
#[derive(Drop)]
pub enum DoneItem {
    Parcel(Ran),
    Mark,
    End,
}

pub type WorkPass = Pass<WorkItem, PassTally<WorkItem>>;

pub type WorkSender = RuledSender<WorkItem, PassTally<WorkItem>, EachAsOften>;

pub type WorkReceiver = RuledReceiver<WorkItem, PassTally<WorkItem>, EachAsOften>;

pub type DonePass = Pass<DoneItem, PassTally<DoneItem>>;

pub type DoneSender = RuledSender<DoneItem, PassTally<DoneItem>, EachAsOften>;

pub type DoneReceiver = RuledReceiver<DoneItem, PassTally<DoneItem>, EachAsOften>;
