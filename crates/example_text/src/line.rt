// A line's bytes, one by one: the part byte, then records as paper 01 has them.
use recording::body_of;
use terms::Event;

#[derive(Clone, Copy)]
pub struct Line {
    // The part byte, once it was read.
    pub part: Option<u8>,
    // The kind of the record that is not whole yet, and how many bytes of its body are still to come.
    begun: Option<(u8, u8)>,
    // The last bytes that stood in a body.
    body: [u8; 4],
}

impl Line {
    // A line of which nothing was read.
    pub fn new() -> Line {
        Line {
            part: None,
            begun: None,
            body: [0; 4],
        }
    }

    // A line of which the part byte was read.
    pub fn behind(part: u8) -> Line {
        Line {
            part: Some(part),
            ..Line::new()
        }
    }

    // Reads one more byte, and gives the event of the record that it ends.
    pub fn read(&mut self, byte: u8) -> Option<Event> {
        if self.part.is_none() {
            self.part = Some(byte);
            return None;
        }
        let (kind, left) = match self.begun {
            None => (byte, body_of(byte)),
            Some((kind, left)) => {
                let [_, b, c, d] = self.body;
                self.body = [b, c, d, byte];
                (kind, left.saturating_sub(1))
            }
        };
        if left == 0 {
            self.begun = None;
            return Some(event_of(kind, self.body));
        }
        self.begun = Some((kind, left));
        None
    }
}

// The event of a record: a body stands at the end of those bytes.
fn event_of(kind: u8, body: [u8; 4]) -> Event {
    let [a, b, c, d] = body;
    match kind {
        1 => Event::Power,
        2 => Event::Falls,
        3 => Event::ByteIn(d),
        4 => Event::Rises,
        6 => Event::Unfinished(d),
        7 => Event::Keys(a, b, c, d),
        8 => Event::Switches(d),
        9 => Event::ByteOut,
        _ => Event::Gap,
    }
}
