//! Servers.

ghost use Rattle.std.specs.Prelude.{map, All, IfOk, IfErr};
ghost use Rattle.std.specs.List.{AllZip};
ghost use Rattle.net_model.specs.Views.{server_of, servers_of};
ghost use Rattle.net_draft.specs.CurveTexts.{text_of};
ghost use Rattle.net_draft.specs.Kept.{IsServerDraft};
ghost use Rattle.net_draft.specs.Views.{server_text};
ghost use Rattle.net_text.specs.Becoming.{BecomesItself, FailsAt};
ghost use Rattle.net_text.specs.Built.{IsServerOf};
ghost use Rattle.net_text.specs.Firsts.{service_place, services_from, FailsFirst};

use crate::limits::place_of;
use crate::services::{kind_of, service_of};
use net_draft::{DraftFault, ServerDraft};
use net_model::Server;
use std::alloc::Global;

fn server_of(alloc: Global, number: usize, draft: &ServerDraft) -> Result<Server, DraftFault>
    requires { IsServerDraft draft.now }
    ensures built { IfOk result (λ s. IsServerOf (server_text draft.now) (server_of s)) }
    ensures over { IfErr result (FailsAt (BecomesItself (text_of draft.now.service.text)) (service_place number)) }
{
    let place = place_of(alloc, "server", number, "service")?;
    let service = service_of(place, &draft.service)?;
    Ok(Server {
        name: draft.name.clone()?,
        rate: draft.rate,
        kind: kind_of(&draft.service.text),
        service,
        link: draft.link,
        discipline: draft.discipline.copy()?,
    })
}

/// The servers of a draft, or the fault of the first whose curve is over a limit.
pub(crate) fn servers_of(alloc: Global, drafts: &[ServerDraft]) -> Result<Vec<Server>, DraftFault>
    requires { All IsServerDraft drafts.now }
    ensures built { IfOk result (λ v. AllZip IsServerOf (map server_text drafts.now) (servers_of v.items)) }
    ensures over { IfErr result (FailsFirst (services_from 0 (map server_text drafts.now))) }
{
    let mut servers = Vec::with_capacity(alloc, drafts.len())?;
    for (number, draft) in drafts.iter().enumerate() {
        let server = server_of(alloc, number, draft)?;
        servers.push(server)?;
    }
    Ok(servers)
}
