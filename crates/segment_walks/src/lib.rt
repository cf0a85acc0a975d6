// The walk for PT6312 and PT6315.
#![tactic(auto)]

ghost use Rattle.segment_walks.specs.Walks.{Walks};

use one_record::record_at;
use pointing::stops_at;
use recording::Record;
use segment::Family;
use segment_everyday::everyday_walk;
use segment_knowledge::Knowledge;
use segment_known::taken;
use terms::{Part, Place};
use walks::Walked;

// The cells are changed where they stand. The records of every day are taken one behind the other, and then one that is not of every day.
pub fn segment_walk(part: Part, family: Family, k: Knowledge, bytes: &[u8]) -> Walked<Knowledge>
    ensures { Walks part family k bytes.now result }
{
    let Knowledge {
        mut cells,
        mut control,
    } = k;
    let mut i = 0;
    // Each turn goes on to where a record ends, which no range and no iterator gives.
    loop {
        let went = everyday_walk(family, &mut cells, control, bytes, Place(i));
        control = went.control;
        i = went.at.0;
        if bytes.len() <= i {
            return Walked {
                ending: Ok(()),
                k: Knowledge { cells, control },
            };
        }
        match record_at(part, bytes, Place(i)) {
            Ok(Record { event, length }) => {
                control = taken(family, control, &mut cells, event);
                i += length;
            }
            Err(refusal) => {
                return Walked {
                    ending: Err(stops_at(refusal, bytes, Place(i))),
                    k: Knowledge { cells, control },
                };
            }
        }
    }
}
