// Events, each written into a lent slice: none if there is no room, and then it is as before; else how many bytes.
ghost use Rattle.model.specs.Replica.{came as came_of, get as get_of, has as has_of, put as put_of, tell as tell_of};
ghost use Rattle.wire.specs.Bytes.{write_event};
ghost use Rattle.model.specs.Put.{text};
ghost use Rattle.wire_out.specs.Said.{put_of as put_meant};
ghost use Rattle.wire_out.specs.Written.{Written};

use crate::answer::Put;
use crate::lengths::{body_len, clock_len, put_len};
use crate::writer::Writer;
use wire::kind::EventKind;

pub fn write_put(out: &mut [u8], key: u64, value: &[u8]) -> Option<usize>
    ensures { Written result out.old out.new (write_event (put_of (text key value.now))) }
{
    let mut to = Writer { out, at: 0 };
    to.room(body_len(value).saturating_add(1))?;
    to.byte(EventKind::Put.number());
    to.text(key, value);
    Some(to.at)
}

pub fn write_get(out: &mut [u8], key: u64) -> Option<usize>
    ensures { Written result out.old out.new (write_event (get_of key)) }
{
    let mut to = Writer { out, at: 0 };
    to.room(9)?;
    to.byte(EventKind::Get.number());
    to.number(key);
    Some(to.at)
}

pub fn write_came(out: &mut [u8], put: Put<'_>) -> Option<usize>
    ensures { Written result out.old out.new (write_event (came_of (put_meant put.entry))) }
{
    let mut to = Writer { out, at: 0 };
    to.room(put_len(put).saturating_add(1))?;
    to.byte(EventKind::Came.number());
    to.put(put);
    Some(to.at)
}

pub fn write_has(out: &mut [u8], replica: u64, clock: &[u64]) -> Option<usize>
    ensures { Written result out.old out.new (write_event (has_of replica clock.now)) }
{
    let mut to = Writer { out, at: 0 };
    to.room(clock_len(clock).saturating_add(9))?;
    to.byte(EventKind::Has.number());
    to.number(replica);
    to.clock(clock);
    Some(to.at)
}

pub fn write_tell(out: &mut [u8]) -> Option<usize>
    ensures { Written result out.old out.new (write_event tell_of) }
{
    let mut to = Writer { out, at: 0 };
    to.room(1)?;
    to.byte(EventKind::Tell.number());
    Some(to.at)
}
