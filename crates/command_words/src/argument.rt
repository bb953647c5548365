//! The arguments of commands.
ghost use Rattle.std.specs.Prelude.{◌≡◌};
ghost use Rattle.command_words.specs.Lines.{form_of, name_of};

/// How an argument is given.
#[derive(Clone, Copy)]
pub enum Form {
    /// By its place. It has to be given.
    Positional,
    /// By an option that has to be given.
    Required,
    /// By an option that may be left out.
    Optional,
    /// By a flag.
    Flag,
}

/// An argument of a command.
#[derive(Clone, Copy)]
pub enum Argument {
    Settings,
    File,
    Name,
    Login,
    Id,
    List,
    Pending,
    Machines,
    Events,
    Source,
    Dest,
    Proto,
    Port,
    Server,
    Token,
    Seed,
    Expiry,
    Tags,
    Reusable,
    Ephemeral,
}

impl Argument {
    /// Its name; that of an option or a flag is what stands behind `--`.
    pub(crate) fn name<'a>(self) -> &'a str
        ensures value { result.now ≡ name_of self }
    {
        match self {
            Argument::Settings => "SETTINGS",
            Argument::File => "FILE",
            Argument::Name => "NAME",
            Argument::Login => "LOGIN",
            Argument::Id => "ID",
            Argument::List => "LIST",
            Argument::Pending => "PENDING",
            Argument::Machines => "N",
            Argument::Events => "M",
            Argument::Source => "SRC",
            Argument::Dest => "DST",
            Argument::Proto => "PROTO",
            Argument::Port => "PORT",
            Argument::Server => "server",
            Argument::Token => "token",
            Argument::Seed => "seed",
            Argument::Expiry => "expiry",
            Argument::Tags => "tags",
            Argument::Reusable => "reusable",
            Argument::Ephemeral => "ephemeral",
        }
    }

    /// How it is given.
    pub(crate) fn form(self) -> Form
        ensures value { result ≡ form_of self }
    {
        match self {
            Argument::Settings
            | Argument::File
            | Argument::Name
            | Argument::Login
            | Argument::Id
            | Argument::List
            | Argument::Pending
            | Argument::Machines
            | Argument::Events
            | Argument::Source
            | Argument::Dest
            | Argument::Proto
            | Argument::Port => Form::Positional,
            Argument::Server | Argument::Token => Form::Required,
            Argument::Seed | Argument::Expiry | Argument::Tags => Form::Optional,
            Argument::Reusable | Argument::Ephemeral => Form::Flag,
        }
    }
}
