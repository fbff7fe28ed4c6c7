// What the two calls answer.

#[derive(Clone, Copy)]
pub enum Filed {
    // The number of the first of questions 21, 22 and 23 that is answered no.
    Refused(u8),
    // The new count of sheets.
    Filed(usize),
}

#[derive(Clone, Copy)]
pub enum Current {
    // The number of the first of questions 21 and 23 that is answered no.
    Refused(u8),
    // The current sheet.
    Sheet(usize),
}
