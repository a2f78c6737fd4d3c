ghost use Rattle.std.specs.Prelude.{◌≡◌};

/// The kind of an object (RFC 1813, section 2.5, `ftype3`); in packets it is a number from 1 to 7, in this order.
#[derive(Clone, Copy, Debug, PartialEq, Eq)]
pub enum Kind {
    Reg,
    Dir,
    Blk,
    Chr,
    Lnk,
    Sock,
    Fifo,
}

impl Kind {
    ghost use Rattle.sl_types.specs.Numbers.{kind_number};
    ghost use Rattle.sl_types.specs.Handles.{kind_of};

    /// Its number in packets.
    pub fn number(self) -> u32
        ensures { result ≡ kind_number self }
    {
        match self {
            Kind::Reg => 1,
            Kind::Dir => 2,
            Kind::Blk => 3,
            Kind::Chr => 4,
            Kind::Lnk => 5,
            Kind::Sock => 6,
            Kind::Fifo => 7,
        }
    }

    /// The kind of this number, if there is one.
    pub fn from_number(number: u32) -> Option<Kind>
        ensures { result ≡ kind_of number }
    {
        match number {
            1 => Some(Kind::Reg),
            2 => Some(Kind::Dir),
            3 => Some(Kind::Blk),
            4 => Some(Kind::Chr),
            5 => Some(Kind::Lnk),
            6 => Some(Kind::Sock),
            7 => Some(Kind::Fifo),
            _ => None,
        }
    }
}

/// How a call ended (RFC 1813, section 2.6, `nfsstat3`): those that this server answers.
#[derive(Clone, Copy, Debug, PartialEq, Eq)]
pub enum Status {
    Ok,
    Perm,
    NoEnt,
    Acces,
    Exist,
    NotDir,
    IsDir,
    Inval,
    FBig,
    NoSpc,
    MLink,
    NameTooLong,
    NotEmpty,
    Stale,
    BadHandle,
    NotSync,
    BadCookie,
    TooSmall,
    BadType,
}

impl Status {
    ghost use Rattle.sl_types.specs.Numbers.{status_number, status_of, is_ok_status};

    /// Its number in packets.
    pub fn number(self) -> u32
        ensures { result ≡ status_number self }
    {
        match self {
            Status::Ok => 0,
            Status::Perm => 1,
            Status::NoEnt => 2,
            Status::Acces => 13,
            Status::Exist => 17,
            Status::NotDir => 20,
            Status::IsDir => 21,
            Status::Inval => 22,
            Status::FBig => 27,
            Status::NoSpc => 28,
            Status::MLink => 31,
            Status::NameTooLong => 63,
            Status::NotEmpty => 66,
            Status::Stale => 70,
            Status::BadHandle => 10_001,
            Status::NotSync => 10_002,
            Status::BadCookie => 10_003,
            Status::TooSmall => 10_005,
            Status::BadType => 10_007,
        }
    }

    /// The status of this number, if there is one.
    pub fn from_number(number: u32) -> Option<Status>
        ensures { result ≡ status_of number }
    {
        match number {
            0 => Some(Status::Ok),
            1 => Some(Status::Perm),
            2 => Some(Status::NoEnt),
            13 => Some(Status::Acces),
            17 => Some(Status::Exist),
            20 => Some(Status::NotDir),
            21 => Some(Status::IsDir),
            22 => Some(Status::Inval),
            27 => Some(Status::FBig),
            28 => Some(Status::NoSpc),
            31 => Some(Status::MLink),
            63 => Some(Status::NameTooLong),
            66 => Some(Status::NotEmpty),
            70 => Some(Status::Stale),
            10_001 => Some(Status::BadHandle),
            10_002 => Some(Status::NotSync),
            10_003 => Some(Status::BadCookie),
            10_005 => Some(Status::TooSmall),
            10_007 => Some(Status::BadType),
            _ => None,
        }
    }

    /// Whether the call succeeded.
    pub fn is_ok(self) -> bool
        ensures { result ≡ is_ok_status self }
    {
        matches!(self, Status::Ok)
    }
}
