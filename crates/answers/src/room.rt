// Room that an answer is worked out in, made where input is read and looked at by nothing after it.

// A word's letters, and its rows.
#[derive(Drop)]
pub struct Room {
    pub word: [u8; 128],
    pub rows: [u8; 7424],
}

impl Room {
    pub fn new() -> Room {
        Room {
            word: [0; 128],
            rows: [0; 7424],
        }
    }
}
