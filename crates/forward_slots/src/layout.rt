// The places in the workspace (docs/LAYOUT.md).

// Joint j's numbers stand at j * JOINT: its frame first, and at these offsets its link's velocity, its bias acceleration, its articulated inertia and bias force,
// its terms (U, D, joint bias), its link's acceleration and load.
pub const JOINT: usize = 95;

pub const VELOCITY: usize = 7;

pub const BIAS: usize = 13;

pub const INERTIA: usize = 19;

pub const FORCE: usize = 55;

pub const TERM: usize = 61;

pub const ACCELERATION: usize = 69;

pub const LOAD: usize = 75;

// The root's stand at n * JOINT: its inertia first, and at these offsets its bias force and its acceleration, then the results.
pub const ROOT_FORCE: usize = 36;

pub const ROOT_ACCELERATION: usize = 42;

pub const RESULTS: usize = 48;

// A workspace has n * ROOM_JOINT + ROOM_ROOT numbers or more.
pub const ROOM_JOINT: usize = 96;

pub const ROOM_ROOT: usize = 64;
