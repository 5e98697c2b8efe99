//! How a process and a message over one semiring become those over whichever.
use crate::any_process::{AnyMessage, AnyProcess};
use crate::processes::Process;
use cb_messages::Message;
use cb_semirings::{
    MaxFirst, MaxMin, MaxPlus, MaxSecond, MinFirst, MinMax, MinPlus, MinSecond, OrAnd, PlusFirst,
    PlusMin, PlusPair, PlusSecond, PlusTimes,
};

impl From<Box<Process<PlusTimes>>> for AnyProcess {
    fn from(process: Box<Process<PlusTimes>>) -> AnyProcess {
        AnyProcess::PlusTimes(process)
    }
}

impl From<Message<PlusTimes>> for AnyMessage {
    fn from(message: Message<PlusTimes>) -> AnyMessage {
        AnyMessage::PlusTimes(message)
    }
}

impl From<Box<Process<MinPlus>>> for AnyProcess {
    fn from(process: Box<Process<MinPlus>>) -> AnyProcess {
        AnyProcess::MinPlus(process)
    }
}

impl From<Message<MinPlus>> for AnyMessage {
    fn from(message: Message<MinPlus>) -> AnyMessage {
        AnyMessage::MinPlus(message)
    }
}

impl From<Box<Process<OrAnd>>> for AnyProcess {
    fn from(process: Box<Process<OrAnd>>) -> AnyProcess {
        AnyProcess::OrAnd(process)
    }
}

impl From<Message<OrAnd>> for AnyMessage {
    fn from(message: Message<OrAnd>) -> AnyMessage {
        AnyMessage::OrAnd(message)
    }
}

impl From<Box<Process<MaxMin>>> for AnyProcess {
    fn from(process: Box<Process<MaxMin>>) -> AnyProcess {
        AnyProcess::MaxMin(process)
    }
}

impl From<Message<MaxMin>> for AnyMessage {
    fn from(message: Message<MaxMin>) -> AnyMessage {
        AnyMessage::MaxMin(message)
    }
}

impl From<Box<Process<PlusPair>>> for AnyProcess {
    fn from(process: Box<Process<PlusPair>>) -> AnyProcess {
        AnyProcess::PlusPair(process)
    }
}

impl From<Message<PlusPair>> for AnyMessage {
    fn from(message: Message<PlusPair>) -> AnyMessage {
        AnyMessage::PlusPair(message)
    }
}

impl From<Box<Process<PlusMin>>> for AnyProcess {
    fn from(process: Box<Process<PlusMin>>) -> AnyProcess {
        AnyProcess::PlusMin(process)
    }
}

impl From<Message<PlusMin>> for AnyMessage {
    fn from(message: Message<PlusMin>) -> AnyMessage {
        AnyMessage::PlusMin(message)
    }
}

impl From<Box<Process<PlusFirst>>> for AnyProcess {
    fn from(process: Box<Process<PlusFirst>>) -> AnyProcess {
        AnyProcess::PlusFirst(process)
    }
}

impl From<Message<PlusFirst>> for AnyMessage {
    fn from(message: Message<PlusFirst>) -> AnyMessage {
        AnyMessage::PlusFirst(message)
    }
}

impl From<Box<Process<PlusSecond>>> for AnyProcess {
    fn from(process: Box<Process<PlusSecond>>) -> AnyProcess {
        AnyProcess::PlusSecond(process)
    }
}

impl From<Message<PlusSecond>> for AnyMessage {
    fn from(message: Message<PlusSecond>) -> AnyMessage {
        AnyMessage::PlusSecond(message)
    }
}

impl From<Box<Process<MinFirst>>> for AnyProcess {
    fn from(process: Box<Process<MinFirst>>) -> AnyProcess {
        AnyProcess::MinFirst(process)
    }
}

impl From<Message<MinFirst>> for AnyMessage {
    fn from(message: Message<MinFirst>) -> AnyMessage {
        AnyMessage::MinFirst(message)
    }
}

impl From<Box<Process<MinSecond>>> for AnyProcess {
    fn from(process: Box<Process<MinSecond>>) -> AnyProcess {
        AnyProcess::MinSecond(process)
    }
}

impl From<Message<MinSecond>> for AnyMessage {
    fn from(message: Message<MinSecond>) -> AnyMessage {
        AnyMessage::MinSecond(message)
    }
}

impl From<Box<Process<MaxFirst>>> for AnyProcess {
    fn from(process: Box<Process<MaxFirst>>) -> AnyProcess {
        AnyProcess::MaxFirst(process)
    }
}

impl From<Message<MaxFirst>> for AnyMessage {
    fn from(message: Message<MaxFirst>) -> AnyMessage {
        AnyMessage::MaxFirst(message)
    }
}

impl From<Box<Process<MaxSecond>>> for AnyProcess {
    fn from(process: Box<Process<MaxSecond>>) -> AnyProcess {
        AnyProcess::MaxSecond(process)
    }
}

impl From<Message<MaxSecond>> for AnyMessage {
    fn from(message: Message<MaxSecond>) -> AnyMessage {
        AnyMessage::MaxSecond(message)
    }
}

impl From<Box<Process<MaxPlus>>> for AnyProcess {
    fn from(process: Box<Process<MaxPlus>>) -> AnyProcess {
        AnyProcess::MaxPlus(process)
    }
}

impl From<Message<MaxPlus>> for AnyMessage {
    fn from(message: Message<MaxPlus>) -> AnyMessage {
        AnyMessage::MaxPlus(message)
    }
}

impl From<Box<Process<MinMax>>> for AnyProcess {
    fn from(process: Box<Process<MinMax>>) -> AnyProcess {
        AnyProcess::MinMax(process)
    }
}

impl From<Message<MinMax>> for AnyMessage {
    fn from(message: Message<MinMax>) -> AnyMessage {
        AnyMessage::MinMax(message)
    }
}
