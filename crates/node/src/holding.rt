// The table takes a packet in at its end, and gives out the first whose key is known.
ghost use Rattle.std.specs.Prelude.{◌≡◌, ◌<◌, ◌≤◌, [], ◌∷◌, ◌++◌, map, length, slice_index_or};
ghost use Rattle.std.specs.List.{remove};
ghost use Rattle.cipher.specs.Blocks.{Make};
ghost use Rattle.packet.specs.Kinds.{Data as Packet, data_said};
ghost use Rattle.link.specs.Clock.{Clock};
ghost use Rattle.link.specs.Receiver.{world};
ghost use Rattle.link.specs.Reception.{has};
ghost use Rattle.node.specs.Places.{held, KnownFirst, nothing, slot_said};

use crate::slot::Slot;
use crate::table::Table;
use link::PLACES;
use packet::Data;

impl Table {
    pub(crate) fn new() -> Table
        ensures { held result ≡ [] }
    {
        Table {
            slots: [Slot::new(); PLACES],
            count: 0,
        }
    }

    // The taken places, in the order in which their packets came.
    fn taken(&self) -> &[Slot]
        ensures { map slot_said result.now ≡ held self.now }
    {
        &self.slots[..self.count]
    }

    pub(crate) fn len(&self) -> usize
        ensures { result ≡ length (held self.now) }
    {
        self.taken().len()
    }

    // An equal packet is held.
    pub(crate) fn holds(&self, packet: &Data) -> bool
        ensures { (cipher : Make) (clock : Clock) → result ≡ has (world cipher clock) (data_said packet.now) (held self.now) }
    {
        self.taken().iter().any(|slot| *packet == slot.packet())
    }

    pub(crate) fn add(&mut self, packet: &Data)
        requires room { length (held self.old) < 32 }
        requires short { length packet.now.payload.now ≤ 64 }
        ensures { held self.new ≡ held self.old ++ data_said packet.now ∷ [] }
    {
        let count = self.count;
        let slots = &mut self.slots;
        slots[count].fill(packet);
        self.count = count + 1;
    }

    // The place of the packet to go out next: of those up to an interval, the least interval's, the earliest taken.
    pub(crate) fn first_known(&self, reached: u16) -> Option<usize>
        ensures { KnownFirst reached (held self.now) result }
    {
        let mut first = None;
        let mut least = u32::from(reached) + 1;
        for (place, slot) in self.taken().iter().enumerate() {
            let interval = u32::from(slot.interval);
            if 0 < interval && interval < least {
                first = Some(place);
                least = interval;
            }
        }
        first
    }

    pub(crate) fn get(&self, place: usize) -> Slot
        requires { place < length (held self.now) }
        ensures { (d : Packet) → slice_index_or (held self.now) place d ≡ slot_said result }
    {
        self.slots[place]
    }

    // The packets behind it move up, so that the order stays.
    pub(crate) fn remove(&mut self, place: usize)
        requires { place < length (held self.old) }
        ensures held { held self.new ≡ remove (held self.old) place }
        ensures freed { (s : Slot) → slot_said (slice_index_or self.new.slots self.new.count s) ≡ nothing }
    {
        let count = self.count;
        let slots = &mut self.slots;
        slots[place..count].rotate_left(1);
        slots[count - 1].free();
        self.count = count - 1;
    }
}
