// What an entry names: a field of the old captions, or a digital service.
ghost use Rattle.std.specs.Prelude.{◌≡◌};
ghost use Rattle.service_entry.specs.Service.{digital_entry};

#[derive(Clone, Copy)]
pub struct DigitalServiceEntry {
    pub service: u8,
    pub easy_reader: bool,
    pub wide_aspect_ratio: bool,
}

#[derive(Clone, Copy)]
pub enum FieldOrService {
    // Field 1 is true, field 2 is false.
    Field(bool),
    Service(DigitalServiceEntry),
}

impl DigitalServiceEntry {
    // The three values as they are; a number that cannot be written is refused in writing.
    pub fn new(service: u8, easy_reader: bool, wide_aspect_ratio: bool) -> Self
        ensures { result ≡ digital_entry service easy_reader wide_aspect_ratio }
    {
        Self {
            service,
            easy_reader,
            wide_aspect_ratio,
        }
    }
}
