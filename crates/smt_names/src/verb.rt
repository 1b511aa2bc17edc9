/// The word of a command whose parts are looked at.
#[derive(Clone, Copy)]
pub enum CommandName {
    SetLogic,
    SetInfo,
    SetOption,
    DeclareConst,
    DeclareFun,
    DefineFun,
    DefineTransducer,
    Assert,
    Push,
    Pop,
    CheckSat,
    CheckSatAssuming,
    GetModel,
    GetValue,
    GetUnsatCore,
    GetInfo,
    Echo,
    Reset,
    ResetAssertions,
    Exit,
}
