use crate::asked_having::AskedHaving;
use crate::asked_output::AskedOutput;
use dr_rowindex::AskedPlaces;
use std::alloc::{AllocError, Global};

/// How often each aggregation and each dimension of a query is asked for, by its place among these.
#[derive(Drop)]
pub struct NamedOutputs {
    pub numbers: AskedPlaces,
    pub texts: AskedPlaces,
}

impl NamedOutputs {
    // What is asked for. The only error is that memory ran out.
    pub(crate) fn of(alloc: Global, asked: &AskedHaving) -> Result<NamedOutputs, AllocError> {
        let mut named = NamedOutputs {
            numbers: AskedPlaces::new(alloc),
            texts: AskedPlaces::new(alloc),
        };
        named.add(asked)?;
        Ok(named)
    }

    #[cycle(naming)]
    fn add(&mut self, asked: &AskedHaving) -> Result<(), AllocError> {
        for output in &asked.outputs {
            self.add_output(output)?;
        }
        self.add_each(asked.denied.as_slice())
    }

    #[cycle(naming)]
    fn add_each(&mut self, denied: &[AskedHaving]) -> Result<(), AllocError> {
        for asked in denied {
            self.add(asked)?;
        }
        Ok(())
    }

    fn add_output(&mut self, output: &AskedOutput) -> Result<(), AllocError> {
        match output {
            AskedOutput::Number(look_up) => self.numbers.add(look_up.place),
            AskedOutput::Text(look_up) => self.texts.add(look_up.place),
            AskedOutput::NoText(look_up) => self.texts.add(look_up.place),
        }
    }
}
