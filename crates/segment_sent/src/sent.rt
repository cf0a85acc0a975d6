// The byte to be sent next, by what is known of the position, the data mode and the read count.
ghost use Rattle.std.specs.Prelude.{◌≡◌, ◌<◌, get_or};
ghost use Rattle.rules.specs.Rule.{look};
ghost use Rattle.knowing.specs.Standing.{unknown, Within};
ghost use Rattle.key_codes.specs.View.{coded};
ghost use Rattle.segment.specs.Family.{sizes};
ghost use Rattle.segment.specs.Fact.{range, data_mode, read_count, switches};
ghost use Rattle.segment.specs.Sent.{sent, sent_at, open_sent, key_sent, switches_sent};
ghost use Rattle.sendings.specs.Report.{sending};
ghost use Rattle.segment_sent.specs.Report.{bare, Reports};

use crate::in_range::InRange;
use fact::{Single, both};
use segment::{Family, Sent};
use segment_knowledge::{OPEN, READ_KEYS, READ_SWITCHES, at, with_data};
use sendings::Sending;

impl InRange {
    // What is sent next. The memory has no part in it.
    pub fn sent_next(self) -> Sending
        ensures { Reports (sizes self.family) (sent (sizes self.family)) self.control result }
    {
        let position = self.control.position;
        match position {
            Single::Known(place) => self.sent_at(place),
            Single::Unknown => {
                let open = InRange {
                    family: self.family,
                    control: at(self.control, OPEN),
                };
                both(Single::Known(Sent::NotDriven), open.open_sent())
            }
        }
    }

    fn sent_at(self, place: u8) -> Sending
        ensures { Reports (sizes self.family) (sent_at (sizes self.family) place) self.control result }
    {
        match place {
            OPEN => self.open_sent(),
            _ => Single::Known(Sent::NotDriven),
        }
    }

    fn open_sent(self) -> Sending
        ensures { Reports (sizes self.family) (look data_mode (open_sent (sizes self.family))) self.control result }
    {
        let data = self.control.data;
        match data {
            Single::Known(mode) => self.sent_in(mode),
            Single::Unknown => self.sent_in_any(),
        }
    }

    fn sent_in(self, mode: u8) -> Sending
        requires { mode < range (sizes self.family) data_mode }
        ensures { Reports (sizes self.family) (open_sent (sizes self.family) mode) self.control result }
    {
        match mode {
            READ_KEYS => self.keys_sent(),
            READ_SWITCHES => self.switches_sent(),
            _ => Single::Known(Sent::NotDriven),
        }
    }

    // In an unknown data mode two ways, those that write, drive nothing.
    fn sent_in_any(self) -> Sending
        requires { bare self.control data_mode ≡ unknown }
        ensures { Reports (sizes self.family) (look data_mode (open_sent (sizes self.family))) self.control result }
    {
        let family = self.family;
        let reading = InRange {
            family,
            control: with_data(self.control, READ_KEYS),
        };
        let three = both(Single::Known(Sent::NotDriven), reading.keys_sent());
        match family {
            Family::Pt6312 => {
                let switched = InRange {
                    family,
                    control: with_data(self.control, READ_SWITCHES),
                };
                both(three, switched.switches_sent())
            }
            Family::Pt6315 => three,
        }
    }

    // An unknown read count may be 0, where a key byte is sent, and 4, where the line is not driven.
    fn keys_sent(self) -> Sending
        ensures { Reports (sizes self.family) (look read_count (key_sent (sizes self.family))) self.control result }
    {
        let count = self.control.count;
        match count {
            Single::Known(n) => self.key_sent(n),
            Single::Unknown => Single::Unknown,
        }
    }

    fn key_sent(self, n: u8) -> Sending
        ensures { Reports (sizes self.family) (key_sent (sizes self.family) n) self.control result }
    {
        let sizes = self.family.sizes();
        if n < sizes.keys {
            let keys = self.control.keys;
            key_of(keys, n)
        } else {
            Single::Known(Sent::NotDriven)
        }
    }

    // The same for the switches, which are sent at count 0.
    fn switches_sent(self) -> Sending
        requires { Within 256 (bare self.control switches) }
        ensures { Reports (sizes self.family) (look read_count switches_sent) self.control result }
    {
        let count = self.control.count;
        match count {
            Single::Known(n) => self.switches_at(n),
            Single::Unknown => Single::Unknown,
        }
    }

    fn switches_at(self, n: u8) -> Sending
        ensures { Reports (sizes self.family) (switches_sent n) self.control result }
    {
        let value = self.control.switches;
        if n == 0 {
            match value {
                Single::Known(v) => Single::Known(Sent::Byte(v)),
                Single::Unknown => Single::Unknown,
            }
        } else {
            Single::Known(Sent::NotDriven)
        }
    }
}

fn key_of(keys: [u16; 4], n: u8) -> Sending
    requires { (n < 4) × (Within 256 (coded (get_or keys n 256))) }
    ensures { sending result ≡ coded (get_or keys n 256) }
{
    let i = n as usize;
    let code = keys[i];
    if code < 256 {
        Single::Known(Sent::Byte((code % 256) as u8))
    } else {
        Single::Unknown
    }
}
