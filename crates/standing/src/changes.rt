// What is not what it was.

// A flag for each link; for each joint one for its frame (the origin, or the joint's number of q), its axis and its rotor.
#[derive(Clone, Copy)]
pub struct Changes {
    pub links: [bool; 33],
    pub frames: [bool; 32],
    pub axes: [bool; 32],
    pub rotors: [bool; 32],
}
