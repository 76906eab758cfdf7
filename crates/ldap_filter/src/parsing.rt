ghost use Rattle.std.specs.Prelude.{◌≡◌, ◌⊎◌, IfOk, IfErr, Ok, Err};
ghost use Rattle.std.specs.Str.{IsUtf8};
ghost use Rattle.ldap_filter.specs.FilterText.{IsFilter, DenotesFilter};
ghost use Rattle.ldap_filter.specs.FilterFaults.{IsFilterFault};
ghost use Rattle.ldap_filter.specs.declared.filter.Filter.{Filter};
ghost use Rattle.ldap_filter.specs.declared.filter_fault.FilterFault.TheVariants as fault;

use crate::filter::Filter;
use crate::filter_fault::FilterFault;
use crate::reading::Reader;
use std::alloc::Global;

impl Filter {
    /// The filter that a text denotes (RFC 1960; OSGi Core, "Filter Syntax"). White space is taken before and behind
    /// each filter, and behind `(`, `&`, `|` and `!`; 64 filters at most stand within one another. Each other text is
    /// `Bad`, at the end of its longest front that some filter's text begins with.
    pub fn parse(alloc: Global, text: &[u8]) -> Result<Filter, FilterFault>
        requires { IsUtf8 text.now }
        ensures found { IfOk result (DenotesFilter text.now) }
        ensures form { IfOk result IsFilter }

        // Each text of the grammar is read, unless memory runs out.
        ensures only { (f : Filter) → DenotesFilter text.now f → (result ≡ Ok f) ⊎ (result ≡ Err fault.NoMemory) }
        ensures refused { IfErr result (IsFilterFault text.now) }
    {
        let mut reader = Reader::new(alloc);
        for at in 0..text.len() {
            match reader.next(alloc, text, at)? {
                Some(next) => reader = next,
                None => return Err(FilterFault::Bad { at: at as u64 }),
            }
        }
        match reader.whole(text, text.len()) {
            Some(filter) => Ok(filter),
            None => Err(FilterFault::Bad {
                at: text.len() as u64,
            }),
        }
    }
}
