//! The outcome of an exchange with a web page if a service is strict.
ghost use Rattle.opc_http.specs.Laws.{WebPagesChangeNothing};

use opc_io::sink::Sink;
use opc_state::tables::Tables;

/// A strict service answers 403 to what a web page may have sent, and nothing changes.
pub fn web_pages_change_nothing<T: Tables, K: Sink>()
    ensures { WebPagesChangeNothing T.meaning K.held }
{}
