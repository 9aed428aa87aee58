// The list: three flags, fifteen places and a count.
ghost use Rattle.std.specs.Prelude.{◌≡◌};
ghost use Rattle.service_list.specs.ServiceList as List;
ghost use Rattle.service_entries.specs.Entries.{places};

use basis::{Answer, Refusal};
use service_entries::fillers;
use service_entry::ServiceEntry;
use values::Packet;

// No slice and no Vec: a list holds its entries by value, fifteen places beside a count, and the panel has no heap.
#[derive(Clone, Copy)]
pub struct ServiceInfo {
    pub start: bool,
    pub change: bool,
    pub complete: bool,
    pub services: [ServiceEntry; 15],
    pub count: usize,
}

// A list that may be absent; then it is empty. No Option: a writer may be handed an absent one that has entries, which it
// does not read (absent_list_counted, list_flags_when_not_held and unheld_field_2_counts in must-fail/).
#[derive(Clone, Copy)]
pub struct MaybeServiceInfo {
    pub present: bool,
    pub service_info: ServiceInfo,
}

impl MaybeServiceInfo {
    pub fn absent() -> Self
        ensures { result ≡ List.list_absent }
    {
        let service_info = ServiceInfo::default();
        Self {
            present: false,
            service_info,
        }
    }
}

// What adding gives: beside a refusal, the list as it was. No Result: lists are handed over by value, so that a refusal
// gives the list back too.
#[derive(Clone, Copy)]
pub struct ServiceInfoAdded {
    pub answer: Answer,
    pub list: ServiceInfo,
}

impl ServiceInfo {
    // How many entries a list has places for.
    pub const PLACES: usize = 15;

    // Nothing calls this: its contract holds the constant above to the rules.
    fn held() -> usize
        ensures { result ≡ places }
    {
        Self::PLACES
    }

    // No flag, no entry.
    pub fn default() -> Self
        ensures { result ≡ List.empty }
    {
        let services = fillers();
        Self {
            start: false,
            change: false,
            complete: false,
            services,
            count: 0,
        }
    }

    pub fn set_start(mut self, start: bool) -> Self
        ensures { result ≡ List.set_start self start }
    {
        self.start = start;
        self
    }

    // A change begins a set of services, so that true sets start too.
    pub fn set_change(mut self, change: bool) -> Self
        ensures { result ≡ List.set_change self change }
    {
        self.change = change;
        if change {
            self.start = true;
        }
        self
    }

    pub fn set_complete(mut self, complete: bool) -> Self
        ensures { result ≡ List.set_complete self complete }
    {
        self.complete = complete;
        self
    }

    // Takes every entry out; the flags stay.
    pub fn clear_services(self) -> Self
        ensures { result ≡ List.clear_services self }
    {
        let services = fillers();
        Self {
            start: self.start,
            change: self.change,
            complete: self.complete,
            services,
            count: 0,
        }
    }

    // Puts an entry, whatever it names, behind the others.
    pub fn add_service(mut self, service: ServiceEntry) -> ServiceInfoAdded
        ensures { result ≡ List.added self service }
    {
        let at = self.count;
        if Self::PLACES <= at {
            return ServiceInfoAdded {
                answer: Answer::from(Refusal::WouldOverflow),
                list: self,
            };
        }
        self.services[at] = service;
        self.count = at + 1;
        ServiceInfoAdded {
            answer: Answer::done(0),
            list: self,
        }
    }

    // The length of the section that the list makes.
    pub fn byte_len(self) -> Answer
        ensures { result ≡ List.byte_len self }
    {
        if Self::PLACES < self.count {
            return Answer::from(Refusal::WouldOverflow);
        }
        Answer::done(Packet::SECTION_HEAD_LEN + Packet::SECTION_ENTRY_LEN * self.count)
    }
}
