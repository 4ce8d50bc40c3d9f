// What the four calls on grid blocks answer, in numbers, since C is answered these structs. Their meaning and what they promise is in specs/, their code in the
// crate grid.
#![tactic(auto)]

// What a read answers: 0 or the number of the refusal, and with refusal 4 the index of the first counter above K.
#[repr(C)]
#[derive(Drop)]
pub struct ReadAnswer {
    pub number: usize,
    pub index: usize,
}

// What a conversion answers: the same of its own. A type apart, since C has one for it.
#[repr(C)]
#[derive(Drop)]
pub struct ConvertAnswer {
    pub number: usize,
    pub index: usize,
}

// What a plan and a store answer: 0 or the number of the refusal, the levels, the stuck cells, and of them the wrong and the right ones for the data; and the
// index, as a read.
#[repr(C)]
#[derive(Drop)]
pub struct Answer {
    pub number: usize,
    pub levels: usize,
    pub faults: usize,
    pub wrong: usize,
    pub right: usize,
    pub index: usize,
}
