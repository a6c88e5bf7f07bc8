//! The table `[serve]`.

ghost use Rattle.std.specs.Prelude.{◌≡◌, codes, true, IfOk};
ghost use Rattle.toml.specs.Data.{get_member};
ghost use Rattle.toml.specs.View.{table_view};
ghost use Rattle.settings.specs.ServeKeys.{takes};
ghost use Rattle.settings.specs.ServeTables.{default_parts, serve_number, serve_parts};
ghost use Rattle.settings.specs.ServeTables.{serve_of, AreInRange};
ghost use Rattle.settings.specs.Values.{optional_text};
ghost use Rattle.settings.specs.declared.setting_key.SettingKey.TheVariants.{Status};
ghost use Rattle.value_texts.specs.Texts as texts;

use crate::fault::Refusal;
use crate::serve_key::ServeKey;
use crate::setting_key::SettingKey;
use crate::value::{address_in, member, number_or};
use ras_module::Address;
use toml::Table;

/// What is set for the server.
#[derive(Clone, Copy)]
pub(crate) struct ServeParts {
    pub(crate) receivers: u64,
    pub(crate) ring: u64,
    pub(crate) faults: u64,
    pub(crate) tick: u64,
    pub(crate) buffer: u64,
    pub(crate) status: Option<Address>,
}

impl ServeParts {
    /// What is set if nothing is.
    fn unset() -> ServeParts
        ensures value { result ≡ default_parts }
        ensures ranges { AreInRange result }
    {
        ServeParts {
            receivers: ServeKey::Receivers.default(),
            ring: ServeKey::Ring.default(),
            faults: ServeKey::Faults.default(),
            tick: ServeKey::Tick.default(),
            buffer: ServeKey::Buffer.default(),
            status: None,
        }
    }
}

fn serve_number(serve: &Table, key: ServeKey) -> Result<u64, Refusal>
    ensures value { result ≡ serve_number (table_view serve.now) key }
    ensures range { IfOk result (λ number. takes key number ≡ true) }
{
    let (least, most) = (key.least(), key.most());
    let name = SettingKey::Serve(key);
    number_or(serve, key.name(), name, least, most, key.default())
}

/// Where the status page is to be served, if it is.
fn status_of(serve: &Table) -> Result<Option<Address>, Refusal>
    ensures { result ≡ optional_text Status texts.address_of
        (get_member (codes "status") (table_view serve.now)) }
{
    match member(serve, "status") {
        Some(value) => Ok(Some(address_in(SettingKey::Status, value)?)),
        None => Ok(None),
    }
}

fn parts_in(serve: &Table) -> Result<ServeParts, Refusal>
    ensures value { result ≡ serve_parts (table_view serve.now) }
    ensures ranges { IfOk result AreInRange }
{
    let receivers = serve_number(serve, ServeKey::Receivers)?;
    let ring = serve_number(serve, ServeKey::Ring)?;
    let faults = serve_number(serve, ServeKey::Faults)?;
    let tick = serve_number(serve, ServeKey::Tick)?;
    let buffer = serve_number(serve, ServeKey::Buffer)?;
    let status = status_of(serve)?;
    Ok(ServeParts {
        receivers,
        ring,
        faults,
        tick,
        buffer,
        status,
    })
}

/// What is set for the server.
#[tactic(auto, unfolding(crate::specs::ServeTables::serve_of))]
pub(crate) fn serve_of(document: &Table) -> Result<ServeParts, Refusal>
    ensures value { result ≡ serve_of (get_member (codes "serve") (table_view document.now)) }
    ensures ranges { IfOk result AreInRange }
{
    match member(document, "serve") {
        Some(value) => match value.as_table() {
            Some(serve) => parts_in(serve),
            None => Err(Refusal::WrongKind(SettingKey::ServeTable)),
        },
        None => Ok(ServeParts::unset()),
    }
}
