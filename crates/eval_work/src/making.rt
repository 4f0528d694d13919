// Strings, arrays, dictionaries and functions that are made.
ghost use Rattle.std.specs.Prelude.{◌≡◌, ◌+◌, IfOk, length};
ghost use Rattle.std.specs.Arc.{arc_value};
ghost use Rattle.dsl_syntax.specs.SyntaxView.{func_view};
ghost use Rattle.eval_meaning.specs.Literals.{new_array as array_made, new_dict as dict_made, string_value as string_made};
ghost use Rattle.eval_meaning.specs.States.{with_function as function_made};
ghost use Rattle.eval_work.specs.Works.{state_of, Gives};
ghost use Rattle.eval_work.specs.Kept.{NamedAll, PairsNamed, IsFit, IsKept};

use crate::{Locals, Stop, Work};
use dsl_syntax::Func;
use dsl_value::Value;
use site_base::{Place, Row, Text};
use std::sync::Arc;

impl Work {
    /// Makes an array.
    pub fn make_array(&mut self, place: Place, items: Vec<Value>) -> Result<Value, Stop>
        requires fit { IsFit self.old }
        requires items { NamedAll self.old.store items.items }
        ensures gives { Gives (λ v. v) result (state_of self.new) (array_made place items.items (state_of self.old)) }
        ensures kept { IfOk result (IsKept self.old self.new) }
    {
        self.charge(place, items.len() as u64 + 1)?;
        Ok(self.store.array(Row::from(items))?)
    }

    /// Makes a dictionary.
    pub fn make_dict(&mut self, place: Place, pairs: Vec<(Text, Value)>) -> Result<Value, Stop>
        requires fit { IsFit self.old }
        requires pairs { PairsNamed self.old.store pairs.items }
        ensures gives { Gives (λ v. v) result (state_of self.new) (dict_made place pairs.items (state_of self.old)) }
        ensures kept { IfOk result (IsKept self.old self.new) }
    {
        self.charge(place, pairs.len() as u64 + 1)?;
        Ok(self.store.dict(Row::from(pairs))?)
    }

    /// The string of a literal.
    pub fn string(&mut self, place: Place, text: &Text) -> Result<Value, Stop>
        requires { IsFit self.old }
        ensures gives { Gives (λ v. v) result (state_of self.new) (string_made place text.now (state_of self.old)) }
        ensures kept { IfOk result (IsKept self.old self.new) }
    {
        self.charge(place, text.len() as u64)?;
        Ok(Value::Str(text.clone()?))
    }

    /// What `this` is.
    pub fn this_value(&self) -> Result<Value, Stop>
        ensures value { IfOk result (λ v. v ≡ self.now.this) }
        ensures memory { Rattle.std.specs.Prelude.IfErr result (λ e. e ≡ Stop.Memory) }
    {
        Ok(self.this.clone()?)
    }

    /// Makes a function of what it captured.
    pub fn make_function(&mut self, func: &Arc<Func>, captured: Locals) -> Result<Value, Stop>
        requires fit { IsFit self.old }
        requires captured { PairsNamed self.old.store captured }
        ensures gives { Gives (λ v. v) result (state_of self.new) (function_made (record { func = func_view (arc_value func.now); captured = captured }) (state_of self.old)) }
        ensures kept { IfOk result (IsKept self.old self.new) }
    {
        Ok(
            self.store
                .add_function(func, Row::from(captured.into_vec()?))?,
        )
    }
}
