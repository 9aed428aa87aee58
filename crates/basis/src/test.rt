// The numbered tests of reading. Each looks at a size, at two bytes together, or at one byte; each kind has its tests in
// the order of the rules.
#[derive(Clone, Copy)]
pub enum Test {
    Size(SizeTest),
    Pair(PairTest),
    Byte(ByteTest),
}

#[derive(Clone, Copy)]
pub enum SizeTest {
    // 1.1: the room in the lent buffer.
    CaptionRoom,
    // 2.1, 2.3: the least size, and the one that byte 2 says.
    PacketLeast,
    PacketSize,
    // 5.1
    TimeWhole,
    // 6.1, 6.4
    CaptionsHead,
    CaptionsWhole,
    // 7.1, 7.3
    ServicesHead,
    ServicesWhole,
    // S1, S4
    SectionHead,
    SectionSize,
    // 8.1, 8.3, 8.4
    ClosingHead,
    FutureWhole,
    FutureNext,
    // 9.1
    FooterWhole,
}

#[derive(Clone, Copy)]
pub enum PairTest {
    // 2.2: 96 69.
    Magic,
    // 9.2
    FooterSequence,
}

#[derive(Clone, Copy)]
pub enum ByteTest {
    // 3.1
    Rate,
    // 5.2 to 5.5
    TimeId,
    Hours,
    Minutes,
    Frames,
    // 6.2, 6.3
    CaptionsId,
    CaptionsFixed,
    // 7.2
    ServicesId,
    // S2, S3
    SectionId,
    SectionFixed,
    // S5, S6: an entry's header byte.
    HeaderFixed,
    HeaderForm,
    // E1, E2a, E2b: byte 3 of an entry, which names its kind. E3, E4: bytes 4 and 5.
    KindFixed,
    KindNumber,
    KindField,
    EntryFlags,
    EntryEnd,
    // S8: the number that the header byte names.
    HeaderNumber,
    // 7.4
    ServicesFlags,
    // 8.2
    FutureId,
    // 9.3
    Checksum,
}
