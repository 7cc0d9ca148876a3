//! Where a token is looked for, in which order, and whose answer counts.
ghost use Rattle.std.specs.Prelude.{◌≡◌, ◌||◌, position};
ghost use Rattle.edit_fetch.specs.Credentials.{asked_provider, counted_place, deciding_reply, is_decisive, next_step, wants_token};

/// A place in which a setting may stand.
#[derive(Clone, Copy, Debug)]
pub enum Place {
    /// An environment variable.
    Environment,
    /// The file of credentials in the home folder of cargo.
    Credentials,
    /// The configuration file at this position in their order.
    File(usize),
}

/// A provider of credentials.
#[derive(Clone, Copy, Debug)]
pub enum Provider {
    /// That of the registry itself.
    Own,
    /// The global provider at this position of the list.
    Global(usize),
    /// The built-in one where none is configured, `cargo:token`.
    Default,
}

/// The providers that are configured for a registry.
#[derive(Clone, Copy, Debug)]
pub struct Providers {
    /// Whether the registry has a provider of its own.
    pub own: bool,
    /// The number of global providers.
    pub global: usize,
}

/// What a provider answered.
#[derive(Clone, Copy, Debug)]
pub enum Reply {
    /// A token.
    Token,
    /// It has no token for the registry, or does not serve registries like it.
    Nothing,
    /// It failed.
    Failed,
}

/// What follows from the answers so far.
#[derive(Clone, Copy, Debug)]
pub enum Step {
    /// This provider is asked.
    Ask(Provider),
    /// The answer at this position counts.
    Decided(usize),
    /// No provider has a token.
    Exhausted,
}

/// Whether a registry wants a token, given the HTTP status of the answer to an unauthenticated request for
/// its `config.json`, and whether that file has `"auth-required": true`.
pub fn wants_token(status: &str, auth_required: bool) -> bool
    ensures { result ≡ wants_token status.now auth_required }
{
    status == "401" || (status == "200" && auth_required)
}

/// The position of the first configuration file that has a value.
fn first_file(files: &[bool]) -> Option<usize>
    ensures { result ≡ position (λ has. has) files.now }
{
    files.iter().position(|has| *has)
}

/// The place whose value counts, given whether the environment, the file of credentials and each
/// configuration file, in their order, has one.
pub fn counted_place(environment: bool, credentials: bool, files: &[bool]) -> Option<Place>
    ensures { result ≡ counted_place environment credentials files.now }
{
    if environment {
        return Some(Place::Environment);
    }
    if credentials {
        return Some(Place::Credentials);
    }
    match first_file(files) {
        Some(file) => Some(Place::File(file)),
        None => None,
    }
}

/// The provider that is asked after `asked` others had no token.
fn asked_provider(providers: Providers, asked: usize) -> Option<Provider>
    ensures { result ≡ asked_provider providers asked }
{
    if providers.own {
        return if asked == 0 {
            Some(Provider::Own)
        } else {
            None
        };
    }
    if providers.global == 0 {
        return if asked == 0 {
            Some(Provider::Default)
        } else {
            None
        };
    }
    if asked < providers.global {
        Some(Provider::Global(providers.global - 1 - asked))
    } else {
        None
    }
}

/// Whether no other provider is asked after this answer.
fn is_decisive(reply: Reply) -> bool
    ensures { result ≡ is_decisive reply }
{
    !matches!(reply, Reply::Nothing)
}

/// The position of the answer that counts.
fn deciding_reply(replies: &[Reply]) -> Option<usize>
    ensures { result ≡ deciding_reply replies.now }
{
    replies.iter().position(|reply| is_decisive(*reply))
}

/// What follows from the answers of the first providers, in the order in which they are asked.
pub fn next_step(providers: Providers, replies: &[Reply]) -> Step
    ensures { result ≡ next_step providers replies.now }
{
    if let Some(place) = deciding_reply(replies) {
        return Step::Decided(place);
    }
    match asked_provider(providers, replies.len()) {
        Some(provider) => Step::Ask(provider),
        None => Step::Exhausted,
    }
}
